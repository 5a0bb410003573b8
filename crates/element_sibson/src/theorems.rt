// Theorems that belong to no function. Each is the contract of one that returns 0, so that the gate asks for its proof.
ghost use Rattle.std.specs.Prelude.{◌≡◌};
ghost use Rattle.element_sibson.specs.Theorems.{Uniqueness, Existence, Edges};
ghost use Rattle.element_sibson.specs.Sense.{FractionLaws, SameValues, Derivatives, Turnings, Linearity, Covering};

pub fn uniqueness() -> u64
    ensures { (result ≡ 0) × Uniqueness }
{
    0
}

pub fn existence() -> u64
    ensures { (result ≡ 0) × Existence }
{
    0
}

pub fn edges() -> u64
    ensures { (result ≡ 0) × Edges }
{
    0
}

pub fn fraction_laws() -> u64
    ensures { (result ≡ 0) × FractionLaws }
{
    0
}

pub fn same_values() -> u64
    ensures { (result ≡ 0) × SameValues }
{
    0
}

pub fn derivatives() -> u64
    ensures { (result ≡ 0) × Derivatives }
{
    0
}

pub fn turnings() -> u64
    ensures { (result ≡ 0) × Turnings }
{
    0
}

pub fn linearity() -> u64
    ensures { (result ≡ 0) × Linearity }
{
    0
}

pub fn covering() -> u64
    ensures { (result ≡ 0) × Covering }
{
    0
}
