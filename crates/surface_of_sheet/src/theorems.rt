// Theorems that belong to no function. Each is the contract of one that returns 0, so that the gate asks for its proof.
ghost use Rattle.std.specs.Prelude.{◌≡◌};
ghost use Rattle.surface_of_sheet.specs.Theorems.{TheSet, SharedEdges, ReadLaws, RunLaws, HalfUnits, AtNodes};
ghost use Rattle.surface_of_sheet.specs.Touching.{CellLaws, PlaceLaws, Touching};
ghost use Rattle.surface_of_sheet.specs.SameCells.{MeshLaws};
ghost use Rattle.surface_of_sheet.specs.Examples.{Examples};

pub fn the_set() -> u64
    ensures { (result ≡ 0) × TheSet }
{
    0
}

pub fn shared_edges() -> u64
    ensures { (result ≡ 0) × SharedEdges }
{
    0
}

pub fn read_laws() -> u64
    ensures { (result ≡ 0) × ReadLaws }
{
    0
}

pub fn run_laws() -> u64
    ensures { (result ≡ 0) × RunLaws }
{
    0
}

pub fn half_units() -> u64
    ensures { (result ≡ 0) × HalfUnits }
{
    0
}

pub fn at_nodes() -> u64
    ensures { (result ≡ 0) × AtNodes }
{
    0
}

pub fn cell_laws() -> u64
    ensures { (result ≡ 0) × CellLaws }
{
    0
}

pub fn place_laws() -> u64
    ensures { (result ≡ 0) × PlaceLaws }
{
    0
}

pub fn touching() -> u64
    ensures { (result ≡ 0) × Touching }
{
    0
}

pub fn mesh_laws() -> u64
    ensures { (result ≡ 0) × MeshLaws }
{
    0
}

pub fn examples() -> u64
    ensures { (result ≡ 0) × Examples }
{
    0
}
