// A test of every index, gathered in one flag.
ghost use Rattle.std.specs.Prelude.{◌≡◌, ℕ, Bool, ◌<◌};
ghost use Rattle.sheet_layout.specs.Some.{some};

// Whether the test holds at some index below `count`. No early exit: the compiler may look at several at once.
pub fn some<F: Fn(usize) -> bool>(count: usize, test: F) -> bool
    requires { (k : ℕ) → k < count → F.pre test k }
    ensures { (p : ℕ → Bool) → ((k : ℕ) (b : Bool) → k < count → F.post test k b → b ≡ p k) → result ≡ some p count }
{
    let mut found = false;
    for k in 0..count {
        found |= test(k);
    }
    found
}
