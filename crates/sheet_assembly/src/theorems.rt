// Theorems that belong to no function. Each is the contract of one that returns 0, so that the gate asks for its proof.
ghost use Rattle.std.specs.Prelude.{◌≡◌};
ghost use Rattle.sheet_assembly.specs.Assembled.{AssemblyLaws};

pub fn assembly_laws() -> u64
    ensures { (result ≡ 0) × AssemblyLaws }
{
    0
}
