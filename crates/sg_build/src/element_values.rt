ghost use Rattle.std.specs.Prelude.{◌≡◌, ◌+◌, ℤ, length, map, IfOk, IfErr, IfSome, IfNone};
ghost use Rattle.sg_algebra.proofs.Rational.{whole_value};
ghost use Rattle.sg_algebra.proofs.Value.{Value};
ghost use Rattle.sg_num.specs.Stopped.{KeepsWideStep};
ghost use Rattle.sg_tower.specs.Terms.{term_of};
ghost use Rattle.sg_value_theory.proofs.Elements.{Point, HasElement};
ghost use Rattle.sg_build.specs.Found.{Finds};
ghost use Rattle.sg_build.specs.Points.{IsPointAt};
ghost use Rattle.sg_build.specs.TermValues.{IsPowerOf, ArePowers, IsTermAt, AreTermsAt, IsElementAt, HasNoneAt};

use crate::numbers::{natural_power, product, sum, whole};
use sg_num::{Field, Stop};
use sg_tower::{FlatTerm, Tower};
use std::alloc::Global;

/// The value of an element where the variable is k and the products and then the sums of the tower have these values; None exactly
/// where it has none: a coefficient has a pole at k, or a product with a negative exponent is 0. The error is out of memory, or a
/// step that doesn't fit 128 bits.
pub fn elem_at<K: Field, T: Tower<K = K>>(
    alloc: Global,
    tower: &T,
    e: &T::Elem,
    k: i64,
    gens: &[K],
) -> Result<Option<K>, Stop>
    requires one_each { length gens.now ≡ length (T.reading K.vars K.val tower.now).formal.products + (T.reading K.vars K.val tower.now).formal.sums }
    ensures terms { IfOk result (λ o. IfSome o (λ x. IsElementAt (T.reading K.vars K.val tower.now).formal ((T.reading K.vars K.val tower.now).of e.now) k
        (map K.val gens.now) (K.val x))) }
    ensures no_terms { IfOk result (λ o. IfNone o (HasNoneAt (T.reading K.vars K.val tower.now).formal ((T.reading K.vars K.val tower.now).of e.now) k
        (map K.val gens.now))) }
    ensures some { IfOk result (λ o. IfSome o (λ x. (p : Point K.vars) → IsPointAt (T.reading K.vars K.val tower.now).formal k (map K.val gens.now) p
        → HasElement (T.reading K.vars K.val tower.now).formal p ((T.reading K.vars K.val tower.now).of e.now) (K.val x))) }
    ensures none { IfOk result (λ o. IfNone o ((p : Point K.vars) → IsPointAt (T.reading K.vars K.val tower.now).formal k (map K.val gens.now) p
        → (v : Value K.vars) → ¬ HasElement (T.reading K.vars K.val tower.now).formal p ((T.reading K.vars K.val tower.now).of e.now) v)) }
    ensures wide { IfErr result KeepsWideStep }
{
    let place: K = whole(alloc, &i128::from(k))?;
    let terms = tower.flat(alloc, e)?;
    let found = terms_value(alloc, &place, gens, terms.as_slice())?;
    Ok(found)
}

// The sum of the values of the terms.
fn terms_value<K: Field>(
    alloc: Global,
    place: &K,
    gens: &[K],
    terms: &[FlatTerm<K>],
) -> Result<Option<K>, Stop>
    ensures value { IfOk result (λ o. (k : ℤ) → K.val place.now ≡ whole_value K.vars k
        → Finds K.val (AreTermsAt k (map K.val gens.now) (map (term_of K.val) terms.now)) o) }
    ensures wide { IfErr result KeepsWideStep }
{
    match terms.split_first() {
        None => {
            let r = K::zero(alloc)?;
            Ok(Some(r))
        }
        Some((t, rest)) => {
            let x = term_value(alloc, place, gens, t)?;
            let y = terms_value(alloc, place, gens, rest)?;
            let r = sum(alloc, x, y)?;
            Ok(r)
        }
    }
}

// The value of a term.
fn term_value<K: Field>(
    alloc: Global,
    place: &K,
    gens: &[K],
    t: &FlatTerm<K>,
) -> Result<Option<K>, Stop>
    ensures value { IfOk result (λ o. (k : ℤ) → K.val place.now ≡ whole_value K.vars k
        → Finds K.val (IsTermAt k (map K.val gens.now) (term_of K.val t.now)) o) }
    ensures wide { IfErr result KeepsWideStep }
{
    // the clause of this call says that the coefficient is in lowest terms
    let _size = t.coeff.den_len();
    let c = t.coeff.value(alloc, place)?;
    let u = powers(alloc, gens, t.exps.as_slice())?;
    let r = product(alloc, c, u)?;
    Ok(r)
}

// The product of the powers of the values.
fn powers<K: Field>(alloc: Global, gens: &[K], exps: &[i128]) -> Result<Option<K>, Stop>
    ensures value { IfOk result (Finds K.val (ArePowers (map K.val gens.now) exps.now)) }
    ensures wide { IfErr result KeepsWideStep }
{
    match exps.split_first() {
        None => {
            let r = K::one(alloc)?;
            Ok(Some(r))
        }
        Some((e, later)) => match gens.split_first() {
            None => {
                let r = K::one(alloc)?;
                Ok(Some(r))
            }
            Some((v, rest)) => {
                let x = whole_power(alloc, v, e)?;
                let y = powers(alloc, rest, later)?;
                let r = product(alloc, x, y)?;
                Ok(r)
            }
        },
    }
}

// A power with a whole exponent; None for a negative one of 0.
fn whole_power<K: Field>(alloc: Global, v: &K, e: &i128) -> Result<Option<K>, Stop>
    ensures value { IfOk result (Finds K.val (IsPowerOf (K.val v.now) e.now)) }
    ensures wide { IfErr result KeepsWideStep }
{
    let n = *e;
    if n >= 0 {
        let r = natural_power(alloc, v, n.unsigned_abs())?;
        return Ok(Some(r));
    }
    if v.is_zero() {
        return Ok(None);
    }
    let one = K::one(alloc)?;
    let inverse = one.div(alloc, v)?;
    let r = natural_power(alloc, &inverse, n.unsigned_abs())?;
    Ok(Some(r))
}
