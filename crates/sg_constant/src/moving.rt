ghost use Rattle.std.specs.Prelude.{◌≡◌, ℤ, pos, neg_ℤ, ◌≤ℤ◌, IfOk, IfErr};
ghost use Rattle.sg_algebra.proofs.Value.{one_value, neg_value, ◌*ᵛ◌};
ghost use Rattle.sg_num.specs.Stopped.{KeepsWideStep};
ghost use Rattle.sg_reduction_theory.proofs.Places.{Fits};
ghost use Rattle.sg_constant.specs.Shares.{share, shares, IsCarried};

use crate::shares::{Share, copy, image, multiple};
use sg_num::{Field, Row, Stop};
use std::alloc::{AllocError, Global};

// The farthest way that a share is moved: each step leaves one behind in memory.
const LIMIT: i128 = 1_048_576;

// The coefficient a of the equation, its inverse, and -1.
#[derive(Drop)]
pub(crate) struct Factors<F: Field> {
    pub(crate) a: F,
    pub(crate) inverse: F,
    pub(crate) minus: F,
}

// The share at k - m.
pub(crate) fn carried<F: Field>(
    alloc: Global,
    factors: &Factors<F>,
    moved: &mut Row<Share<F>>,
    s: Share<F>,
    m: i128,
) -> Result<Share<F>, Stop>
    requires inverse { F.val factors.now.a *ᵛ F.val factors.now.inverse ≡ one_value }
    requires minus { F.val factors.now.minus ≡ neg_value one_value }
    requires fits { Fits (share F.val s) }
    ensures carried { IfOk result (λ r. IsCarried (F.val factors.now.a) (neg_ℤ m) (share F.val s) (shares F.val moved.old) (share F.val r)
        (shares F.val moved.new)) }
    ensures wide { IfErr result KeepsWideStep }
{
    if m > LIMIT || m < -LIMIT {
        return Err(Stop::Memory(AllocError));
    }
    if m < 0 {
        let r = carried_forward(alloc, factors, moved, s, opposite(m))?;
        return Ok(r);
    }
    let r = carried_back(alloc, factors, moved, s, count(m))?;
    Ok(r)
}

// The share at k + n.
fn carried_forward<F: Field>(
    alloc: Global,
    factors: &Factors<F>,
    moved: &mut Row<Share<F>>,
    s: Share<F>,
    n: u32,
) -> Result<Share<F>, Stop>
    requires minus { F.val factors.now.minus ≡ neg_value one_value }
    requires fits { Fits (share F.val s) }
    ensures carried { IfOk result (λ r. IsCarried (F.val factors.now.a) (pos n) (share F.val s) (shares F.val moved.old) (share F.val r)
        (shares F.val moved.new)) }
    ensures wide { IfErr result KeepsWideStep }
{
    let mut r = s;
    'steps: for i in 0..n {
        r = forward(alloc, factors, moved, &r)?;
    }
    Ok(r)
}

// The share at k + 1.
fn forward<F: Field>(
    alloc: Global,
    factors: &Factors<F>,
    moved: &mut Row<Share<F>>,
    s: &Share<F>,
) -> Result<Share<F>, Stop>
    requires minus { F.val factors.now.minus ≡ neg_value one_value }
    requires fits { Fits (share F.val s.now) }
    ensures carried { IfOk result (λ r. IsCarried (F.val factors.now.a) (pos 1) (share F.val s.now) (shares F.val moved.old) (share F.val r)
        (shares F.val moved.new)) }
    ensures wide { IfErr result KeepsWideStep }
{
    let r = image(alloc, s, 1, &factors.a)?;
    let left = multiple(alloc, s, &factors.minus)?;
    moved.push(left)?;
    Ok(r)
}

// The opposite of a negative number as an unsigned one.
fn opposite(m: i128) -> u32
    requires low { neg_ℤ (pos 1_048_576) ≤ℤ m }
    requires high { m ≤ℤ pos 0 }
    ensures value { neg_ℤ m ≡ pos result }
{
    (-m) as u32
}

// The share at k - n.
fn carried_back<F: Field>(
    alloc: Global,
    factors: &Factors<F>,
    moved: &mut Row<Share<F>>,
    s: Share<F>,
    n: u32,
) -> Result<Share<F>, Stop>
    requires inverse { F.val factors.now.a *ᵛ F.val factors.now.inverse ≡ one_value }
    requires fits { Fits (share F.val s) }
    ensures carried { IfOk result (λ r. IsCarried (F.val factors.now.a) (neg_ℤ (pos n)) (share F.val s) (shares F.val moved.old) (share F.val r)
        (shares F.val moved.new)) }
    ensures wide { IfErr result KeepsWideStep }
{
    let mut r = s;
    'steps: for i in 0..n {
        r = back(alloc, factors, moved, &r)?;
    }
    Ok(r)
}

// The share at k - 1.
fn back<F: Field>(
    alloc: Global,
    factors: &Factors<F>,
    moved: &mut Row<Share<F>>,
    s: &Share<F>,
) -> Result<Share<F>, Stop>
    requires inverse { F.val factors.now.a *ᵛ F.val factors.now.inverse ≡ one_value }
    requires fits { Fits (share F.val s.now) }
    ensures carried { IfOk result (λ r. IsCarried (F.val factors.now.a) (neg_ℤ (pos 1)) (share F.val s.now) (shares F.val moved.old) (share F.val r)
        (shares F.val moved.new)) }
    ensures wide { IfErr result KeepsWideStep }
{
    let r = image(alloc, s, -1, &factors.inverse)?;
    let left = copy(alloc, &r)?;
    moved.push(left)?;
    Ok(r)
}

// The number as an unsigned one.
fn count(m: i128) -> u32
    requires low { pos 0 ≤ℤ m }
    requires high { m ≤ℤ pos 1_048_576 }
    ensures value { m ≡ pos result }
{
    m as u32
}
