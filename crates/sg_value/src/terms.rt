ghost use Rattle.std.specs.Prelude.{◌≡◌, ℕ, ◌<◌, ◌≤◌, ◌^◌, ℤ, pos, ◌+ℤ◌, IsTrue, ◌↔◌};
ghost use Rattle.sg_spec.specs.Fraction.{whole};
ghost use Rattle.sg_spec.specs.Value.{how_many};
ghost use Rattle.sg_num.specs.Value.{fraction};

use sg_num::Rat;

/// How many whole numbers there are from the first to the last.
pub fn count(from: i64, last: i64) -> u128
    ensures { result ≡ how_many from last }
{
    if last < from {
        return 0;
    }
    u128::from(last.abs_diff(from)) + 1
}

/// The whole number that comes `i` places after the first. The last one only bounds the place, so that the number fits.
pub fn place(from: i64, last: i64, i: u128) -> i64
    requires { i < how_many from last }
    ensures { result ≡ from +ℤ pos i }
{
    let _ = last;
    (i128::from(from) + i as i128) as i64
}

/// The whole number as a fraction.
pub fn whole(n: i64) -> Rat
    ensures { fraction result ≡ whole n }
{
    Rat::whole(i128::from(n))
}
