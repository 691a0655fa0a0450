ghost use Rattle.std.specs.Prelude.{◌≡◌, ℕ, ◌<◌, ◌+ℤ◌, ◌<ℤ◌, length, reverse, map, neg_ℤ, IfOk, IfErr, IsTrue, ◌↔◌, [], ◌∷◌, ◌++◌};
ghost use Rattle.sg_algebra.specs.Coefficients.{zip_longest};
ghost use Rattle.sg_num.specs.Stopped.{KeepsWideStep};
ghost use Rattle.sg_tower_theory.proofs.Flat.{IsAfter};
ghost use Rattle.sg_laurent.specs.Exponents.{unit_exponents};

use sg_num::{Stop, whole_difference, whole_sum};
use smallvec::SmallVec;
use std::alloc::{AllocError, Global};

/// The exponents once more.
pub(crate) fn same_exponents(alloc: Global, exps: &[i128]) -> Result<SmallVec<i128, 4>, Stop>
    ensures value { IfOk result (λ r. r.items ≡ exps.now) }
    ensures wide { IfErr result KeepsWideStep }
{
    let copy = SmallVec::from_slice(alloc, exps)?;
    Ok(copy)
}

/// Whether two lists of exponents are one.
pub(crate) fn are_same(a: &[i128], b: &[i128]) -> bool
    ensures { IsTrue result ↔ (a.now ≡ b.now) }
{
    a == b
}

/// Whether the exponents `a` come after the exponents `b` of as many products: those of the last product are compared first.
pub(crate) fn comes_after(a: &[i128], b: &[i128]) -> bool
    requires { length a.now ≡ length b.now }
    ensures { IsTrue result ↔ IsAfter (reverse a.now) (reverse b.now) }
{
    for i in 0..a.len() {
        let x = a[a.len() - 1 - i];
        let y = b[b.len() - 1 - i];
        if differs(x, y) {
            return is_greater(x, y);
        }
    }
    false
}

fn differs(x: i128, y: i128) -> bool
    ensures { IsTrue result ↔ ¬ (x ≡ y) }
{
    x != y
}

fn is_greater(x: i128, y: i128) -> bool
    ensures { IsTrue result ↔ (y <ℤ x) }
{
    x > y
}

/// The sums of the exponents of as many products.
pub(crate) fn exponents_sum(
    alloc: Global,
    a: &[i128],
    b: &[i128],
) -> Result<SmallVec<i128, 4>, Stop>
    requires { length a.now ≡ length b.now }
    ensures value { IfOk result (λ r. r.items ≡ zip_longest ◌+ℤ◌ a.now b.now) }
    ensures wide { IfErr result KeepsWideStep }
{
    let mut row: SmallVec<i128, 4> = SmallVec::new(alloc);
    for i in 0..a.len() {
        let x = a[i];
        let y = b[i];
        let sum = whole_sum(x, y)?;
        pushed(&mut row, sum)?;
    }
    Ok(row)
}

// One exponent more.
fn pushed(row: &mut SmallVec<i128, 4>, e: i128) -> Result<(), AllocError>
    ensures ok { IfOk result (λ _. row.new.items ≡ row.old.items ++ e ∷ []) }
{
    row.push(e)?;
    Ok(())
}

/// The exponents of the inverse.
pub(crate) fn exponents_negated(alloc: Global, a: &[i128]) -> Result<SmallVec<i128, 4>, Stop>
    ensures value { IfOk result (λ r. r.items ≡ map neg_ℤ a.now) }
    ensures wide { IfErr result KeepsWideStep }
{
    let mut row: SmallVec<i128, 4> = SmallVec::new(alloc);
    for i in 0..a.len() {
        let x = a[i];
        let opposite = whole_difference(0, x)?;
        pushed(&mut row, opposite)?;
    }
    Ok(row)
}

/// The exponents of the product `i` alone, or of 1 where there is no product `i`.
pub(crate) fn exponents_of_one(alloc: Global, n: usize, i: usize) -> Result<SmallVec<i128, 4>, Stop>
    ensures value { IfOk result (λ r. r.items ≡ unit_exponents n i) }
    ensures wide { IfErr result KeepsWideStep }
{
    let mut row: SmallVec<i128, 4> = SmallVec::new(alloc);
    for j in 0..n {
        let e = if i == j { 1 } else { 0 };
        pushed(&mut row, e)?;
    }
    Ok(row)
}

/// Whether all exponents are 0.
pub(crate) fn are_zero(exps: &[i128]) -> bool
    ensures { IsTrue result ↔ (exps.now ≡ unit_exponents (length exps.now) (length exps.now)) }
{
    for i in 0..exps.len() {
        if differs(exps[i], 0) {
            return false;
        }
    }
    true
}
