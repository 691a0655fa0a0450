ghost use Rattle.std.specs.Prelude.{◌≡◌, ℕ, suc, pos, ◌<◌, ◌≤◌, ◌<ℤ◌, ◌≤ℤ◌, map, length, get_or, [], IfOk, IfErr, IfSome, IfNone};
ghost use Rattle.sg_algebra.proofs.Ring.{nat};
ghost use Rattle.sg_algebra.proofs.Value.{zero_value};
ghost use Rattle.sg_algebra.proofs.ValueField.{ValueR};
ghost use Rattle.sg_algebra.proofs.Polynomial.{coefficient, zero_polynomial};
ghost use Rattle.sg_num.specs.Stopped.{KeepsWideStep};
ghost use Rattle.sg_poly.specs.Polynomials.{polynomial};
ghost use Rattle.sg_dispersion_theory.proofs.Terms.{earlier};
ghost use Rattle.sg_first_order_theory.proofs.Bounds.{indicial};
ghost use Rattle.sg_first_order_theory.proofs.Basis.{IsBound};

use sg_num::{Field, Rat, Row, Stop};
use sg_poly::Poly;
use std::alloc::{AllocError, Global};

// The greatest bound on a degree that is used.
const LIMIT: usize = 1_048_576;

// A bound below which the degrees of all polynomial solutions are, where the right sides are combinations of the list.
pub(crate) fn bound<F: Field>(
    alloc: Global,
    a: &Poly<F>,
    b: &Poly<F>,
    sides: &[Poly<F>],
) -> Result<usize, Stop>
    requires { ¬ (polynomial F.val a.now ≡ zero_polynomial) }
    ensures value { IfOk result (λ n. IsBound n (polynomial F.val a.now) (polynomial F.val b.now) (map (polynomial F.val) sides.now)) }
    ensures wide { IfErr result KeepsWideStep }
{
    let c = longest(sides);
    if c >= LIMIT {
        return Err(Stop::Memory(AllocError));
    }
    let m = last_place(a, b);
    let lead = coefficient_at(alloc, a, m)?;
    let other = coefficient_at(alloc, b, m)?;
    if !lead.same(alloc, &other)? {
        return Ok(c.saturating_sub(m));
    }
    let least = (c + 1).saturating_sub(m);
    match root(alloc, a, b, m, &lead)? {
        Some(n) => {
            if n >= LIMIT {
                return Err(Stop::Memory(AllocError));
            }
            Ok(least.max(n + 1))
        }
        None => Ok(least),
    }
}

// The greatest of the degrees.
fn last_place<F: Field>(a: &Poly<F>, b: &Poly<F>) -> usize
    requires { ¬ (polynomial F.val a.now ≡ zero_polynomial) }
    ensures left { length a.now ≤ suc result }
    ensures right { length b.now ≤ suc result }
    ensures some { coefficient (map F.val a.now) result ≡ coefficient (map F.val b.now) result → ¬ (coefficient (map F.val a.now) result ≡ zero_value) }
{
    let p = a.coeffs();
    let q = b.coeffs();
    p.len().max(q.len()) - 1
}

// The coefficient at `i`, which is 0 past the degree.
pub(crate) fn coefficient_at<F: Field>(alloc: Global, p: &Poly<F>, i: usize) -> Result<F, Stop>
    ensures value { IfOk result (λ x. F.val x ≡ coefficient (map F.val p.now) i) }
    ensures wide { IfErr result KeepsWideStep }
{
    match p.coeff(i) {
        Some(c) => {
            let x = c.copy(alloc)?;
            Ok(x)
        }
        None => {
            let x = F::zero(alloc)?;
            Ok(x)
        }
    }
}

// The greatest length.
pub(crate) fn longest<F: Field>(list: &[Poly<F>]) -> usize
    ensures { (i : ℕ) → i < length list.now → length (get_or list.now i []) ≤ result }
{
    let mut n = 0;
    for i in 0..list.len() {
        n = n.max(list[i].coeffs().len());
    }
    n
}

// The root of the indicial equation, if it is a natural number.
fn root<F: Field>(
    alloc: Global,
    a: &Poly<F>,
    b: &Poly<F>,
    m: usize,
    lead: &F,
) -> Result<Option<usize>, Stop>
    requires lead { F.val lead.now ≡ coefficient (map F.val a.now) m }
    requires some { ¬ (F.val lead.now ≡ zero_value) }
    ensures some { IfOk result (λ o. IfSome o (λ n. (k : ℕ) → indicial (ValueR F.vars) m (map F.val a.now) (map F.val b.now) k ≡ zero_value → k ≡ n)) }
    ensures none { IfOk result (λ o. IfNone o ((k : ℕ) → ¬ (indicial (ValueR F.vars) m (map F.val a.now) (map F.val b.now) k ≡ zero_value))) }
    ensures wide { IfErr result KeepsWideStep }
{
    let left = before(alloc, b, m)?;
    let right = before(alloc, a, m)?;
    let x = left.sub(alloc, &right)?.div(alloc, lead)?;
    let r = natural(alloc, &x)?;
    Ok(r)
}

// The coefficient before the one at `m`; before the first stands 0.
fn before<F: Field>(alloc: Global, p: &Poly<F>, m: usize) -> Result<F, Stop>
    ensures value { IfOk result (λ x. F.val x ≡ earlier (ValueR F.vars) (coefficient (map F.val p.now)) m) }
    ensures wide { IfErr result KeepsWideStep }
{
    if m == 0 {
        let x = F::zero(alloc)?;
        return Ok(x);
    }
    coefficient_at(alloc, p, m - 1)
}

// The natural number that the element is; None where it is none. Where it is one its values at all numbers are this number.
fn natural<F: Field>(alloc: Global, x: &F) -> Result<Option<usize>, Stop>
    ensures some { IfOk result (λ o. IfSome o (λ n. F.val x.now ≡ nat (ValueR F.vars) n)) }
    ensures none { IfOk result (λ o. IfNone o ((n : ℕ) → ¬ (F.val x.now ≡ nat (ValueR F.vars) n))) }
    ensures wide { IfErr result KeepsWideStep }
{
    let c = ceiling(alloc, x)?;
    if c < 0 {
        return Ok(None);
    }
    if c >= 1_048_576 {
        return Err(Stop::Memory(AllocError));
    }
    let same = x.same(alloc, &F::from_rat(alloc, Rat::whole(c))?)?;
    if same { Ok(Some(count(c))) } else { Ok(None) }
}

// The number as an unsigned one.
fn count(c: i128) -> usize
    requires low { pos 0 ≤ℤ c }
    requires high { c <ℤ pos 1_048_576 }
    ensures { c ≡ pos result }
{
    c as usize
}

// The least whole number that is no less than the value of the element at some numbers.
fn ceiling<F: Field>(alloc: Global, x: &F) -> Result<i128, Stop>
    ensures value { IfOk result (λ c. (n : ℕ) → F.val x.now ≡ nat (ValueR F.vars) n → c ≡ pos n) }
    ensures wide { IfErr result KeepsWideStep }
{
    let mut list = Row::new(alloc);
    list.push(x.copy(alloc)?)?;
    let probe = F::probe(alloc, &list)?;
    let value = *probe.values.get(0);
    Ok(value.ceil())
}
