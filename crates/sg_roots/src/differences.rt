//! Differences of polynomials with whole coefficients.
ghost use Rattle.std.specs.Prelude.{◌≡◌, ◌≤◌, ◌-◌, ℤ, pos, ◌+ℤ◌, ◌-ℤ◌, ◌*ℤ◌, ◌∷◌, length, get_or, IfOk, IfErr};
ghost use Rattle.sg_num.specs.Stopped.{KeepsWideStep};
ghost use Rattle.sg_num.specs.Roots.{whole_at};

use sg_num::{Row, Stop, whole_sum};
use std::alloc::Global;

/// The coefficients of p(k+1) - p(k), one fewer.
pub(crate) fn differences(alloc: Global, list: &[i128]) -> Result<Row<i128>, Stop>
    ensures value { IfOk result (λ d. (m : ℤ) → whole_at d m ≡ whole_at list.now (m +ℤ pos 1) -ℤ whole_at list.now m) }
    ensures shorter { IfOk result (λ d. length d ≤ length list.now - 1) }
    ensures wide { IfErr result KeepsWideStep }
{
    let mut row = Row::new(alloc);
    let mut i = list.len();
    while i > 1 {
        i -= 1;
        row = next_differences(alloc, &list[i..], row.as_slice())?;
    }
    Ok(row)
}

// The coefficients of q(k) + (k + 1) d(k): where d(k) is q(k+1) - q(k), these are the differences of a constant and k q(k).
fn next_differences(alloc: Global, q: &[i128], d: &[i128]) -> Result<Row<i128>, Stop>
    requires { length d.now ≤ length q.now - 1 }
    ensures value { IfOk result (λ r. (m : ℤ) → whole_at r m ≡ whole_at q.now m +ℤ (m +ℤ pos 1) *ℤ whole_at d.now m) }
    ensures shorter { IfOk result (λ r. length r ≤ length q.now) }
    ensures wide { IfErr result KeepsWideStep }
{
    let mut row = Row::new(alloc);
    for j in 0..q.len() {
        let more = whole_sum(entry(d, j), entry_before(d, j))?;
        let item = whole_sum(q[j], more)?;
        row.push(item)?;
    }
    Ok(row)
}

// The number at a place; 0 past the end.
fn entry(list: &[i128], i: usize) -> i128
    ensures { result ≡ get_or list.now i (pos 0) }
{
    if i < list.len() { list[i] } else { 0 }
}

// The number before a place; 0 at the start and past the end.
fn entry_before(list: &[i128], i: usize) -> i128
    ensures { result ≡ get_or (pos 0 ∷ list.now) i (pos 0) }
{
    if i == 0 { 0 } else { entry(list, i - 1) }
}
