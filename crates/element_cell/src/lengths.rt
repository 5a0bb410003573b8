// Widths, heights and offsets within a cell, and their powers, as signed numbers.
// Products and no `pow`, since the contracts have products; `as` and no `try_from`, since no length is too large for an i64.
ghost use Rattle.std.specs.Prelude.{◌≡◌, ◌*◌, ◌≤◌, pos};

pub fn length(l: usize) -> i64
    requires { l ≤ 64 }
    ensures { result ≡ pos l }
{
    l as i64
}

pub fn square(l: usize) -> i64
    requires { l ≤ 64 }
    ensures { result ≡ pos (l * l) }
{
    let z = l as i64;
    z * z
}

pub fn cube(l: usize) -> i64
    requires { l ≤ 64 }
    ensures { result ≡ pos (l * l * l) }
{
    let z = l as i64;
    z * z * z
}
