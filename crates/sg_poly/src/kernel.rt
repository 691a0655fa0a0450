ghost use Rattle.std.specs.Prelude.{◌≡◌, ℕ, suc, ◌+◌, ◌<◌, ◌≤◌, ◌∷◌, length, map, max, IfOk, IfErr, IsTrue, ◌↔◌};
ghost use Rattle.sg_algebra.specs.Coefficients.{poly_mul};
ghost use Rattle.sg_algebra.proofs.Value.{◌+ᵛ◌, ◌-ᵛ◌, ◌*ᵛ◌, zero_value};
ghost use Rattle.sg_algebra.proofs.ValueField.{ValueR};
ghost use Rattle.sg_algebra.proofs.Polynomial.{coefficient};
ghost use Rattle.sg_num.specs.Stopped.{KeepsWideStep};

use sg_num::{Field, Row, Stop};
use std::alloc::Global;

// How many coefficients there are up to the last that isn't 0.
pub(crate) fn size_of<F: Field>(list: &[F]) -> usize
    ensures within { result ≤ length list.now }
    ensures zeros { (k : ℕ) → result ≤ k → coefficient (map F.val list.now) k ≡ zero_value }
    ensures last { (k : ℕ) → result ≡ suc k → ¬ (coefficient (map F.val list.now) k ≡ zero_value) }
{
    let mut n = list.len();
    while n > 0 {
        if list[n - 1].is_zero() {
            n -= 1;
        } else {
            return n;
        }
    }
    0
}

// The sum of the coefficients at `i`, within one of the rows.
pub(crate) fn sum_at<F: Field>(alloc: Global, p: &[F], q: &[F], i: usize) -> Result<F, Stop>
    requires { i < max (length p.now) (length q.now) }
    ensures value { IfOk result (λ r. F.val r ≡ coefficient (map F.val p.now) i +ᵛ coefficient (map F.val q.now) i) }
    ensures wide { IfErr result KeepsWideStep }
{
    if i >= p.len() {
        let r = q[i].copy(alloc)?;
        return Ok(r);
    }
    if i >= q.len() {
        let r = p[i].copy(alloc)?;
        return Ok(r);
    }
    let r = p[i].add(alloc, &q[i])?;
    Ok(r)
}

// The difference of the coefficients at `i`, within one of the rows.
pub(crate) fn difference_at<F: Field>(alloc: Global, p: &[F], q: &[F], i: usize) -> Result<F, Stop>
    requires { i < max (length p.now) (length q.now) }
    ensures value { IfOk result (λ r. F.val r ≡ coefficient (map F.val p.now) i -ᵛ coefficient (map F.val q.now) i) }
    ensures wide { IfErr result KeepsWideStep }
{
    if i >= p.len() {
        let r = F::zero(alloc)?.sub(alloc, &q[i])?;
        return Ok(r);
    }
    if i >= q.len() {
        let r = p[i].copy(alloc)?;
        return Ok(r);
    }
    let r = p[i].sub(alloc, &q[i])?;
    Ok(r)
}

// The coefficient of the product at `n`.
pub(crate) fn product_at<F: Field>(alloc: Global, p: &[F], q: &[F], n: usize) -> Result<F, Stop>
    requires { n < length p.now + length q.now }
    ensures value { IfOk result (λ r. F.val r ≡ coefficient (poly_mul (ValueR F.vars) (map F.val p.now) (map F.val q.now)) n) }
    ensures wide { IfErr result KeepsWideStep }
{
    let mut sum = F::zero(alloc)?;
    let mut j = if n < p.len() { n + 1 } else { p.len() };
    while j > 0 {
        j -= 1;
        sum = product_added(alloc, &p[j], q, n - j, sum)?;
    }
    Ok(sum)
}

// `sum` and one product more, `a` times the coefficient at `k`.
fn product_added<F: Field>(alloc: Global, a: &F, q: &[F], k: usize, sum: F) -> Result<F, Stop>
    ensures value { IfOk result (λ r. F.val r ≡ F.val a.now *ᵛ coefficient (map F.val q.now) k +ᵛ F.val sum) }
    ensures wide { IfErr result KeepsWideStep }
{
    if k >= q.len() {
        return Ok(sum);
    }
    let r = a.mul(alloc, &q[k])?.add(alloc, &sum)?;
    Ok(r)
}

// Whether the two rows, of one length, have equal coefficients.
pub(crate) fn rows_same<F: Field>(alloc: Global, p: &[F], q: &[F]) -> Result<bool, Stop>
    requires { length p.now ≡ length q.now }
    ensures value { IfOk result (λ r. IsTrue r ↔ ((k : ℕ) → coefficient (map F.val p.now) k ≡ coefficient (map F.val q.now) k)) }
    ensures wide { IfErr result KeepsWideStep }
{
    for i in 0..p.len() {
        if !p[i].same(alloc, &q[i])? {
            return Ok(false);
        }
    }
    Ok(true)
}
