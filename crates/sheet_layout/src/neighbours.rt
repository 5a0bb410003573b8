// The neighbours of a line along an axis, and of the node on it.
ghost use Rattle.std.specs.Prelude.{◌≡◌, ◌<◌};
ghost use Rattle.sheet_layout.specs.Neighbours.{previous, next};

// The line before line `k`, the first itself; and the line after it of `count`, the last itself.
pub fn previous(k: usize) -> usize
    ensures { result ≡ previous k }
{
    k.saturating_sub(1)
}

pub fn next(count: usize, k: usize) -> usize
    requires { k < count }
    ensures { result ≡ next count k }
{
    (k + 1).min(count - 1)
}
