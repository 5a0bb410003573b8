// Theorems that belong to no function. Each is the contract of one that returns 0, so that the gate asks for its proof.
ghost use Rattle.std.specs.Prelude.{◌≡◌};
ghost use Rattle.sheet_calls.specs.Rules.{RuleLaws};
ghost use Rattle.sheet_pool.specs.Pool.{PoolInput};
ghost use Rattle.sheet_pool.specs.PoolLaws.{PoolLaws};
ghost use Rattle.sheet_pool.specs.Examples.{Examples};

pub fn rule_laws() -> u64
    ensures { (result ≡ 0) × RuleLaws PoolInput }
{
    0
}

pub fn pool_laws() -> u64
    ensures { (result ≡ 0) × PoolLaws }
{
    0
}

pub fn examples() -> u64
    ensures { (result ≡ 0) × Examples }
{
    0
}
