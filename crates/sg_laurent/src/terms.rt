ghost use Rattle.std.specs.Prelude.{◌≡◌, ℕ, ◌<◌, ◌≤◌, length, take, drop, reverse, slice_index_or, IfOk, IfErr, IsTrue, IsFalse};
ghost use Rattle.sg_algebra.specs.Coefficients.{Each};
ghost use Rattle.sg_num.specs.Stopped.{KeepsWideStep};
ghost use Rattle.sg_tower_theory.proofs.Flat.{IsAfter};
ghost use Rattle.sg_laurent.specs.Elements.{exponents, IsLater, Same, Sum, Product, element, term_in, coefficient_of, IsNormal};

use crate::exponents::{are_same, comes_after, exponents_sum, same_exponents};
use sg_num::{Field, Row, Stop};
use smallvec::SmallVec;
use std::alloc::Global;

/// One term: an exponent for each product, in their order, and a coefficient.
#[derive(Drop)]
pub struct Term<K: Field> {
    pub exps: SmallVec<i128, 4>,
    pub coeff: K,
}

impl<K: Field> Term<K> {
    /// The term with another coefficient.
    pub fn with_coefficient(&self, alloc: Global, coeff: K) -> Result<Term<K>, Stop>
        ensures exponents { IfOk result (λ r. exponents r ≡ exponents self.now) }
        ensures coefficient { IfOk result (λ r. r.coeff ≡ coeff) }
        ensures wide { IfErr result KeepsWideStep }
    {
        let exps = same_exponents(alloc, self.exps.as_slice())?;
        Ok(Term { exps, coeff })
    }
}

/// The terms and those of a list more.
pub(crate) fn added<K: Field>(
    alloc: Global,
    n: usize,
    terms: Row<Term<K>>,
    ys: &[Term<K>],
) -> Result<Row<Term<K>>, Stop>
    requires normal { IsNormal K.val n terms }
    requires fit { Each (λ t. length (exponents t) ≡ n) ys.now }
    ensures value { IfOk result (λ r. Same K.val n (element K.val n r) (Sum K.val n (element K.val n terms) (element K.val n ys.now))) }
    ensures normal { IfOk result (IsNormal K.val n) }
    ensures wide { IfErr result KeepsWideStep }
{
    let mut row = terms;
    for i in 0..ys.len() {
        let t = copied(alloc, &ys[i])?;
        row = gathered(alloc, n, row, t)?;
    }
    Ok(row)
}

// The term once more.
fn copied<K: Field>(alloc: Global, t: &Term<K>) -> Result<Term<K>, Stop>
    ensures exponents { IfOk result (λ r. exponents r ≡ exponents t.now) }
    ensures value { IfOk result (λ r. K.val r.coeff ≡ K.val t.now.coeff) }
    ensures wide { IfErr result KeepsWideStep }
{
    let exps = same_exponents(alloc, t.exps.as_slice())?;
    let coeff = t.coeff.copy(alloc)?;
    Ok(Term { exps, coeff })
}

/// The terms and one more: it goes to its place, or into the term with the same exponents.
pub(crate) fn gathered<K: Field>(
    alloc: Global,
    n: usize,
    terms: Row<Term<K>>,
    t: Term<K>,
) -> Result<Row<Term<K>>, Stop>
    requires normal { IsNormal K.val n terms }
    requires fit { length (exponents t) ≡ n }
    ensures value { IfOk result (λ r. Same K.val n (element K.val n r) (Sum K.val n (element K.val n terms) (term_in K.val n t))) }
    ensures normal { IfOk result (IsNormal K.val n) }
    ensures wide { IfErr result KeepsWideStep }
{
    let p = place(n, terms.as_slice(), t.exps.as_slice());
    if stands_at(terms.as_slice(), p, t.exps.as_slice()) {
        merged(alloc, n, terms, p, t)
    } else {
        placed(n, terms, p, t)
    }
}

// How many of the terms come after the exponents.
fn place<K: Field>(n: usize, terms: &[Term<K>], exps: &[i128]) -> usize
    requires fit { Each (λ t. length (exponents t) ≡ n) terms.now }
    requires own { length exps.now ≡ n }
    ensures inside { result ≤ length terms.now }
    ensures before { Each (λ t. IsAfter (reverse (exponents t)) (reverse exps.now)) (take result terms.now) }
    ensures next { result < length terms.now → (t : Term K) → t ≡ slice_index_or terms.now result t → ¬ IsAfter (reverse (exponents t)) (reverse exps.now) }
{
    for i in 0..terms.len() {
        if !comes_after(terms[i].exps.as_slice(), exps) {
            return i;
        }
    }
    terms.len()
}

// Whether the term at `p` has the exponents.
fn stands_at<K: Field>(terms: &[Term<K>], p: usize, exps: &[i128]) -> bool
    ensures inside { IsTrue result → p < length terms.now }
    ensures same { IsTrue result → (t : Term K) → t ≡ slice_index_or terms.now p t → exponents t ≡ exps.now }
    ensures other { IsFalse result → p < length terms.now → (t : Term K) → t ≡ slice_index_or terms.now p t → ¬ (exponents t ≡ exps.now) }
{
    if p < terms.len() {
        are_same(terms[p].exps.as_slice(), exps)
    } else {
        false
    }
}

// The coefficient goes into the term at `p`, which leaves where it becomes 0.
fn merged<K: Field>(
    alloc: Global,
    n: usize,
    terms: Row<Term<K>>,
    p: usize,
    t: Term<K>,
) -> Result<Row<Term<K>>, Stop>
    requires normal { IsNormal K.val n terms }
    requires inside { p < length terms }
    requires same { (s : Term K) → s ≡ slice_index_or terms p s → exponents s ≡ exponents t }
    ensures value { IfOk result (λ r. Same K.val n (element K.val n r) (Sum K.val n (element K.val n terms) (term_in K.val n t))) }
    ensures normal { IfOk result (IsNormal K.val n) }
    ensures wide { IfErr result KeepsWideStep }
{
    let mut row = terms;
    let coeff = row.get(p).coeff.add(alloc, &t.coeff)?;
    if coeff.is_zero() {
        row.remove(p);
        return Ok(row);
    }
    let Term { exps, coeff: _ } = t;
    row.set(p, Term { exps, coeff });
    Ok(row)
}

// The term goes to the place `p`, where it isn't 0.
fn placed<K: Field>(
    n: usize,
    terms: Row<Term<K>>,
    p: usize,
    t: Term<K>,
) -> Result<Row<Term<K>>, Stop>
    requires normal { IsNormal K.val n terms }
    requires fit { length (exponents t) ≡ n }
    requires inside { p ≤ length terms }
    requires before { Each (λ s. IsLater s t) (take p terms) }
    requires after { Each (IsLater t) (drop p terms) }
    ensures value { IfOk result (λ r. Same K.val n (element K.val n r) (Sum K.val n (element K.val n terms) (term_in K.val n t))) }
    ensures normal { IfOk result (IsNormal K.val n) }
    ensures wide { IfErr result KeepsWideStep }
{
    let mut row = terms;
    if t.coeff.is_zero() {
        return Ok(row);
    }
    row.insert(p, t)?;
    Ok(row)
}
