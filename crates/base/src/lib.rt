// Choosing between two values without a branch in the caller, and the larger of two numbers.
#![tactic(auto)]

ghost use Rattle.std.specs.Prelude.{◌≡◌, cond};
ghost use Rattle.base.specs.Choosing.{larger};

pub mod refusal; // refusal.rt: why something is refused

pub fn pick<T: Copy>(c: bool, a: T, b: T) -> T
    ensures { result ≡ cond c a b }
{
    if c { a } else { b }
}

pub fn larger(a: u32, b: u32) -> u32
    ensures { result ≡ larger a b }
{
    a.max(b)
}
