ghost use Rattle.std.specs.Prelude.{◌≡◌, ◌≢◌, ◌+◌, ◌*◌, ◌-◌, ◌<◌, ◌≤◌, ◌^◌, ℤ, pos, neg_ℤ, ◌*ℤ◌, ◌+ℤ◌, length, unsigned_abs, IfOk, IfErr, IfSome, IfNone, IsTrue, ◌↔◌};
ghost use Rattle.sg_num.specs.Stopped.{IsTooWide, KeepsWideStep};
ghost use Rattle.sg_num.specs.Roots.{whole_at, IsBound, AreRoots};

use crate::row::Row;
use crate::step::{Stop, Wide};
use crate::whole::{whole_quotient, whole_sum};
use std::alloc::Global;

// A power of 2 that no root reaches in size, if there is one up to `most`.
pub(crate) fn bound(list: &[i128], most: u32) -> Option<u32>
    requires some { 0 < length list.now }
    requires small { most < 2 ^ 31 }
    ensures { IfSome result (λ b. IsBound list.now b) }
{
    let mut b = 1;
    while b <= most {
        if is_bound(list, b) {
            return Some(b);
        }
        b += b;
    }
    None
}

// Whether Cauchy's rule shows that each root is below `b` in size: at such a number and past it the last coefficient
// outweighs the others.
fn is_bound(list: &[i128], b: u32) -> bool
    requires { 0 < length list.now }
    ensures { IsTrue result → IsBound list.now b }
{
    let mut i = list.len() - 1;
    let mut size = list[i].unsigned_abs();
    while i > 0 {
        i -= 1;
        size = lowered(size, b, list[i]);
    }
    size > 0
}

// At most what is left of the size `h`, `b` times, when the size of `c` is taken away: where a number doesn't fit, less.
fn lowered(h: u128, b: u32, c: i128) -> u128
    ensures { result ≤ h * b - unsigned_abs c }
{
    h.saturating_mul(b as u128).saturating_sub(c.unsigned_abs())
}

// The roots from -b on and below b.
pub(crate) fn scanned(alloc: Global, list: &[i128], b: u32) -> Result<Row<i128>, Stop>
    requires { 0 < length list.now }
    ensures value { IfOk result (λ r. AreRoots list.now (neg_ℤ (pos b)) (pos b) r) }
    ensures wide { IfErr result KeepsWideStep }
{
    let mut row = Row::new(alloc);
    let high = b as i128;
    for m in -high..high {
        if is_root(list, m)? {
            row.push(m)?;
        }
    }
    Ok(row)
}

// Whether `m` is a root.
fn is_root(list: &[i128], m: i128) -> Result<bool, Wide>
    requires { 0 < length list.now }
    ensures value { IfOk result (λ r. IsTrue r ↔ (whole_at list.now m ≡ pos 0)) }
    ensures wide { IfErr result IsTooWide }
{
    if m == 0 {
        return Ok(list[0] == 0);
    }
    let r = is_root_by_division(list, m)?;
    Ok(r)
}

// Whether `m`, which isn't 0, is a root: from the lowest coefficient on, the sum of a coefficient and what was divided
// before has to be a multiple of `m`. The numbers stay about as small as the coefficients.
fn is_root_by_division(list: &[i128], m: i128) -> Result<bool, Wide>
    requires { m ≢ pos 0 }
    ensures value { IfOk result (λ r. IsTrue r ↔ (whole_at list.now m ≡ pos 0)) }
    ensures wide { IfErr result IsTooWide }
{
    let mut carry = 0;
    for i in 0..list.len() {
        match whole_quotient(whole_sum(carry, list[i])?, m)? {
            Some(q) => carry = q,
            None => return Ok(false),
        }
    }
    Ok(carry == 0)
}
