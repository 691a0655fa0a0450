ghost use Rattle.std.specs.Prelude.{◌≡◌, ℕ, ◌≤◌, IfOk, IfErr, [], ◌∷◌, length};
ghost use Rattle.sg_num.specs.Stopped.{KeepsWideStep};
ghost use Rattle.sg_tower.specs.Elements.{IsSum, IsDifference, IsProduct};
ghost use Rattle.sg_sums.specs.Polynomials.{IsPlace, IsSumAt, IsDifferenceAt, PolySum, PolyDifference, IsLowDifference, PolyMultiple, PolyScaled, PolyMonomial, PolyProduct, IsOwn};

use sg_num::{Field, Row, Stop};
use sg_tower::Tower;
use std::alloc::Global;

// The coefficient at `i`: 0 past the end.
pub(crate) fn coefficient<T: Tower>(
    alloc: Global,
    below: &T,
    p: &Row<T::Elem>,
    i: usize,
) -> Result<T::Elem, Stop>
    ensures value { IfOk result (IsPlace (T.reading T.K.vars T.K.val below.now) p.now i) }
    ensures wide { IfErr result KeepsWideStep }
{
    if i < p.len() {
        let e = below.copy(alloc, p.get(i))?;
        Ok(e)
    } else {
        let e = below.zero(alloc)?;
        Ok(e)
    }
}

// The sum.
pub(crate) fn added<T: Tower>(
    alloc: Global,
    below: &T,
    x: &Row<T::Elem>,
    y: &Row<T::Elem>,
) -> Result<Row<T::Elem>, Stop>
    ensures value { IfOk result (PolySum (T.reading T.K.vars T.K.val below.now) x.now y.now) }
    ensures wide { IfErr result KeepsWideStep }
{
    let mut r = Row::new(alloc);
    for i in 0..x.len().max(y.len()) {
        r.push(sum_at(alloc, below, x, y, i)?)?;
    }
    Ok(r)
}

// The coefficient of x + y at `i`.
fn sum_at<T: Tower>(
    alloc: Global,
    below: &T,
    x: &Row<T::Elem>,
    y: &Row<T::Elem>,
    i: usize,
) -> Result<T::Elem, Stop>
    ensures value { IfOk result (IsSumAt (T.reading T.K.vars T.K.val below.now) x.now y.now i) }
    ensures wide { IfErr result KeepsWideStep }
{
    if i >= x.len() {
        let b = coefficient(alloc, below, y, i)?;
        return Ok(b);
    }
    if i >= y.len() {
        let a = coefficient(alloc, below, x, i)?;
        return Ok(a);
    }
    let r = sum_of(alloc, below, x.get(i), y.get(i))?;
    Ok(r)
}

// x + y; no step is taken where one of them is 0.
fn sum_of<T: Tower>(alloc: Global, below: &T, x: &T::Elem, y: &T::Elem) -> Result<T::Elem, Stop>
    ensures value { IfOk result (IsSum (T.reading T.K.vars T.K.val below.now) x.now y.now) }
    ensures wide { IfErr result KeepsWideStep }
{
    if below.is_zero(x) {
        let b = below.copy(alloc, y)?;
        return Ok(b);
    }
    if below.is_zero(y) {
        let a = below.copy(alloc, x)?;
        return Ok(a);
    }
    let r = below.add(alloc, x, y)?;
    Ok(r)
}

// x + y, of which neither is asked for any more: the longer one is added to.
pub(crate) fn joined<T: Tower>(
    alloc: Global,
    below: &T,
    x: Row<T::Elem>,
    y: Row<T::Elem>,
) -> Result<Row<T::Elem>, Stop>
    ensures value { IfOk result (PolySum (T.reading T.K.vars T.K.val below.now) x y) }
    ensures wide { IfErr result KeepsWideStep }
{
    if x.len() < y.len() {
        let turned = onto(alloc, below, y, &x)?;
        return Ok(turned);
    }
    let r = onto(alloc, below, x, &y)?;
    Ok(r)
}

// x + y in the place of x, which is no shorter than y.
fn onto<T: Tower>(
    alloc: Global,
    below: &T,
    x: Row<T::Elem>,
    y: &Row<T::Elem>,
) -> Result<Row<T::Elem>, Stop>
    requires { length y.now ≤ length x }
    ensures value { IfOk result (PolySum (T.reading T.K.vars T.K.val below.now) x y.now) }
    ensures wide { IfErr result KeepsWideStep }
{
    let mut r = x;
    for i in 0..y.len() {
        if !below.is_zero(y.get(i)) {
            let s = sum_of(alloc, below, r.get(i), y.get(i))?;
            r.set(i, s);
        }
    }
    Ok(r)
}

// The difference.
pub(crate) fn subtracted<T: Tower>(
    alloc: Global,
    below: &T,
    x: &Row<T::Elem>,
    y: &Row<T::Elem>,
) -> Result<Row<T::Elem>, Stop>
    ensures value { IfOk result (PolyDifference (T.reading T.K.vars T.K.val below.now) x.now y.now) }
    ensures wide { IfErr result KeepsWideStep }
{
    let mut r = Row::new(alloc);
    for i in 0..x.len().max(y.len()) {
        r.push(difference_at(alloc, below, x, y, i)?)?;
    }
    Ok(r)
}

// The coefficients of x - y below `n`.
pub(crate) fn low_difference<T: Tower>(
    alloc: Global,
    below: &T,
    n: usize,
    x: &Row<T::Elem>,
    y: &Row<T::Elem>,
) -> Result<Row<T::Elem>, Stop>
    ensures value { IfOk result (IsLowDifference (T.reading T.K.vars T.K.val below.now) n x.now y.now) }
    ensures wide { IfErr result KeepsWideStep }
{
    let mut r = Row::new(alloc);
    for i in 0..n {
        r.push(difference_at(alloc, below, x, y, i)?)?;
    }
    Ok(r)
}

// The coefficient of x - y at `i`.
fn difference_at<T: Tower>(
    alloc: Global,
    below: &T,
    x: &Row<T::Elem>,
    y: &Row<T::Elem>,
    i: usize,
) -> Result<T::Elem, Stop>
    ensures value { IfOk result (IsDifferenceAt (T.reading T.K.vars T.K.val below.now) x.now y.now i) }
    ensures wide { IfErr result KeepsWideStep }
{
    if i >= y.len() {
        let a = coefficient(alloc, below, x, i)?;
        return Ok(a);
    }
    if i >= x.len() {
        let zero = below.zero(alloc)?;
        let b = difference_of(alloc, below, &zero, y.get(i))?;
        return Ok(b);
    }
    let r = difference_of(alloc, below, x.get(i), y.get(i))?;
    Ok(r)
}

// x - y; no step is taken where y is 0.
fn difference_of<T: Tower>(
    alloc: Global,
    below: &T,
    x: &T::Elem,
    y: &T::Elem,
) -> Result<T::Elem, Stop>
    ensures value { IfOk result (IsDifference (T.reading T.K.vars T.K.val below.now) x.now y.now) }
    ensures wide { IfErr result KeepsWideStep }
{
    if below.is_zero(y) {
        let a = below.copy(alloc, x)?;
        return Ok(a);
    }
    let r = below.sub(alloc, x, y)?;
    Ok(r)
}

// Each coefficient times an element of the tower below.
pub(crate) fn times<T: Tower>(
    alloc: Global,
    below: &T,
    e: &T::Elem,
    x: &Row<T::Elem>,
) -> Result<Row<T::Elem>, Stop>
    ensures value { IfOk result (PolyMultiple (T.reading T.K.vars T.K.val below.now) ((T.reading T.K.vars T.K.val below.now).of e.now) x.now) }
    ensures wide { IfErr result KeepsWideStep }
{
    let mut r = Row::new(alloc);
    for i in 0..x.len() {
        r.push(product_of(alloc, below, e, x.get(i))?)?;
    }
    Ok(r)
}

// x y; no step is taken where y is 0.
fn product_of<T: Tower>(alloc: Global, below: &T, x: &T::Elem, y: &T::Elem) -> Result<T::Elem, Stop>
    ensures value { IfOk result (IsProduct (T.reading T.K.vars T.K.val below.now) x.now y.now) }
    ensures wide { IfErr result KeepsWideStep }
{
    if below.is_zero(y) {
        let zero = below.zero(alloc)?;
        return Ok(zero);
    }
    let r = below.mul(alloc, x, y)?;
    Ok(r)
}

// Each coefficient times a constant; no step is taken where it is 1.
pub(crate) fn scaled<T: Tower>(
    alloc: Global,
    below: &T,
    c: &T::K,
    x: &Row<T::Elem>,
) -> Result<Row<T::Elem>, Stop>
    ensures value { IfOk result (PolyScaled (T.reading T.K.vars T.K.val below.now) (T.K.val c.now) x.now) }
    ensures wide { IfErr result KeepsWideStep }
{
    let one = T::K::one(alloc)?;
    let is_one = c.same(alloc, &one)?;
    if is_one {
        let same = added(alloc, below, &Row::new(alloc), x)?;
        return Ok(same);
    }
    let mut r = Row::new(alloc);
    for i in 0..x.len() {
        r.push(below.scale(alloc, c, x.get(i))?)?;
    }
    Ok(r)
}

// The constant polynomial.
pub(crate) fn single<E: Drop>(alloc: Global, a: E) -> Result<Row<E>, Stop>
    ensures value { IfOk result (λ r. r ≡ a ∷ []) }
    ensures wide { IfErr result KeepsWideStep }
{
    let mut r = Row::new(alloc);
    r.push(a)?;
    Ok(r)
}

// a + t x.
pub(crate) fn behind<E: Drop>(a: E, x: Row<E>) -> Result<Row<E>, Stop>
    ensures value { IfOk result (λ r. r ≡ a ∷ x) }
    ensures wide { IfErr result KeepsWideStep }
{
    let mut r = x;
    r.insert(0, a)?;
    Ok(r)
}

// a t^n.
pub(crate) fn monomial<T: Tower>(
    alloc: Global,
    below: &T,
    n: usize,
    a: &T::Elem,
) -> Result<Row<T::Elem>, Stop>
    ensures value { IfOk result (PolyMonomial (T.reading T.K.vars T.K.val below.now) n a.now) }
    ensures wide { IfErr result KeepsWideStep }
{
    let lead = below.copy(alloc, a)?;
    let mut r = single(alloc, lead)?;
    for _ in 0..n {
        let zero = below.zero(alloc)?;
        r = behind(zero, r)?;
    }
    Ok(r)
}

// The product, by Horner's rule.
pub(crate) fn product<T: Tower>(
    alloc: Global,
    below: &T,
    x: &Row<T::Elem>,
    y: &Row<T::Elem>,
) -> Result<Row<T::Elem>, Stop>
    ensures value { IfOk result (PolyProduct (T.reading T.K.vars T.K.val below.now) x.now y.now) }
    ensures wide { IfErr result KeepsWideStep }
{
    let mut r = Row::new(alloc);
    for i in 0..x.len() {
        let zero = below.zero(alloc)?;
        let higher = behind(zero, r)?;
        let own = times(alloc, below, x.get(x.len() - 1 - i), y)?;
        r = joined(alloc, below, own, higher)?;
    }
    Ok(r)
}

// The sum t itself.
pub(crate) fn own<T: Tower>(alloc: Global, below: &T) -> Result<Row<T::Elem>, Stop>
    ensures value { IfOk result (IsOwn (T.reading T.K.vars T.K.val below.now)) }
    ensures wide { IfErr result KeepsWideStep }
{
    let zero = below.zero(alloc)?;
    let one = below.one(alloc)?;
    let mut r = single(alloc, zero)?;
    r.push(one)?;
    Ok(r)
}
