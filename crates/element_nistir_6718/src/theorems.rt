// The theorems belong to no function. Each is the contract of one that returns 0, so that the gate asks for its proof.
ghost use Rattle.std.specs.Prelude.{◌≡◌};
ghost use Rattle.element_nistir_6718.specs.Source.{Sources};
ghost use Rattle.element_nistir_6718.specs.Misprints.{Misprints};

pub fn sources() -> u64
    ensures { (result ≡ 0) × Sources }
{
    0
}

pub fn misprints() -> u64
    ensures { (result ≡ 0) × Misprints }
{
    0
}
