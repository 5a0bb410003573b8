// Theorems that belong to no function. Each is the contract of one that returns 0, so that the gate asks for its proof.
ghost use Rattle.std.specs.Prelude.{◌≡◌};
ghost use Rattle.surface_pool.specs.PoolSurface.{PoolSurface};
ghost use Rattle.surface_pool.specs.Examples.{Examples};

pub fn pool_surface() -> u64
    ensures { (result ≡ 0) × PoolSurface }
{
    0
}

pub fn examples() -> u64
    ensures { (result ≡ 0) × Examples }
{
    0
}
