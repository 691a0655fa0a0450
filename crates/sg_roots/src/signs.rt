//! The signs of the values of polynomials with whole coefficients: no step is wide where the number is far from 0.
ghost use Rattle.std.specs.Prelude.{◌≡◌, ◌≤◌, ℤ, pos, ◌+ℤ◌, ◌*ℤ◌, unsigned_abs, All, IfOk, IfErr, IsTrue, ◌↔◌};
ghost use Rattle.sg_num.specs.Stopped.{IsTooWide};
ghost use Rattle.sg_num.specs.Roots.{whole_at};
ghost use Rattle.sg_roots.specs.Signs.{IsSameSign, IsSmall, StandsFor};

use sg_num::{Wide, whole_product, whole_sum};

/// A number of the sign of the value at `x`.
pub(crate) fn sign_at(list: &[i128], x: i128) -> Result<i128, Wide>
    requires { All IsSmall list.now }
    ensures value { IfOk result (λ h. IsSameSign h (whole_at list.now x)) }
    ensures wide { IfErr result IsTooWide }
{
    if x.unsigned_abs() < 2 {
        return near_value(list, x);
    }
    Ok(far_sign(list, x))
}

// The value, by Horner's rule.
fn near_value(list: &[i128], x: i128) -> Result<i128, Wide>
    ensures value { IfOk result (λ h. h ≡ whole_at list.now x) }
    ensures wide { IfErr result IsTooWide }
{
    let mut value = 0;
    let mut i = list.len();
    while i > 0 {
        i -= 1;
        value = whole_sum(list[i], whole_product(x, value)?)?;
    }
    Ok(value)
}

// A number of the sign of the value at a number other than 0, 1 and -1: by Horner's rule, in which a number that doesn't fit is
// replaced by the greatest or least one that does. From there on the sizes only grow.
fn far_sign(list: &[i128], x: i128) -> i128
    requires far { 2 ≤ unsigned_abs x }
    requires small { All IsSmall list.now }
    ensures { StandsFor result (whole_at list.now x) }
{
    let mut sign = 0;
    let mut i = list.len();
    while i > 0 {
        i -= 1;
        sign = lowered(sign, x, list[i]);
    }
    sign
}

// What stands for c + x v, where `h` stands for v.
fn lowered(h: i128, x: i128, c: i128) -> i128
    requires far { 2 ≤ unsigned_abs x }
    requires small { IsSmall c }
    ensures { (v : ℤ) → StandsFor h v → StandsFor result (c +ℤ x *ℤ v) }
{
    h.saturating_mul(x).saturating_add(c)
}

/// Whether two numbers are both below 0, both 0 or both above 0.
pub(crate) fn have_same_sign(x: i128, y: i128) -> bool
    ensures { IsTrue result ↔ IsSameSign x y }
{
    if x < 0 {
        return y < 0;
    }
    if x == 0 {
        return y == 0;
    }
    y > 0
}
