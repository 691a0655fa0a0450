ghost use Rattle.std.specs.Prelude.{◌≡◌, ℕ, ◌<◌, ◌≤◌, length, map, IfOk, IfErr, IfSome, IfNone, IsTrue, IsFalse, ◌↔◌};
ghost use Rattle.sg_algebra.proofs.Value.{◌-ᵛ◌, ◌*ᵛ◌, inv_value, zero_value};
ghost use Rattle.sg_algebra.proofs.Polynomial.{coefficient};
ghost use Rattle.sg_num.specs.Stopped.{KeepsWideStep};
ghost use Rattle.sg_matrix.specs.Systems.{LeadsAt};
ghost use Rattle.sg_matrix.specs.Steps.{IsLess};

use sg_num::{Field, Row, Stop};
use std::alloc::Global;

// The first place at which a row isn't 0.
pub(crate) fn lead<F: Field>(r: &[F]) -> Option<usize>
    ensures none { IfNone result ((k : ℕ) → coefficient (map F.val r.now) k ≡ zero_value) }
    ensures some { IfSome result (λ p. LeadsAt (coefficient (map F.val r.now)) p) }
    ensures within { IfSome result (λ p. p < length r.now) }
{
    for k in 0..r.len() {
        if !r[k].is_zero() {
            return Some(k);
        }
    }
    None
}

// Whether this place is before `j`.
pub(crate) fn leads_before<F: Field>(r: &[F], j: usize) -> bool
    ensures yes { IsTrue result → (p : ℕ) → LeadsAt (coefficient (map F.val r.now)) p → p < j }
    ensures no { IsFalse result → (p : ℕ) → LeadsAt (coefficient (map F.val r.now)) p → j ≤ p }
{
    match lead(r) {
        Some(p) => p < j,
        None => false,
    }
}

// Whether this place is `k`.
pub(crate) fn leads_at<F: Field>(r: &[F], k: usize) -> bool
    ensures { IsTrue result ↔ LeadsAt (coefficient (map F.val r.now)) k }
{
    match lead(r) {
        Some(p) => p == k,
        None => false,
    }
}

// An equal row.
pub(crate) fn copied<F: Field>(alloc: Global, r: &[F]) -> Result<Row<F>, Stop>
    ensures size { IfOk result (λ new. length new ≡ length r.now) }
    ensures value { IfOk result (λ new. (k : ℕ) → coefficient (map F.val new) k ≡ coefficient (map F.val r.now) k) }
    ensures wide { IfErr result KeepsWideStep }
{
    let mut row = Row::new(alloc);
    for i in 0..r.len() {
        let c = r[i].copy(alloc)?;
        row.push(c)?;
    }
    Ok(row)
}

// The row over `t`.
pub(crate) fn divided<F: Field>(alloc: Global, r: &[F], t: &F) -> Result<Row<F>, Stop>
    requires { ¬ (F.val t.now ≡ zero_value) }
    ensures size { IfOk result (λ new. length new ≡ length r.now) }
    ensures value { IfOk result (λ new. (k : ℕ) → coefficient (map F.val new) k ≡ coefficient (map F.val r.now) k *ᵛ inv_value (F.val t.now)) }
    ensures wide { IfErr result KeepsWideStep }
{
    let mut row = Row::new(alloc);
    for i in 0..r.len() {
        let c = r[i].div(alloc, t)?;
        row.push(c)?;
    }
    Ok(row)
}

// `b` less `t` times the row `other`.
pub(crate) fn cleared<F: Field>(alloc: Global, b: &[F], t: &F, other: &[F]) -> Result<Row<F>, Stop>
    requires { length other.now ≡ length b.now }
    ensures size { IfOk result (λ r. length r ≡ length b.now) }
    ensures value { IfOk result (IsLess F.val b.now t.now other.now) }
    ensures wide { IfErr result KeepsWideStep }
{
    let mut row = Row::new(alloc);
    for i in 0..b.len() {
        let c = b[i].sub(alloc, &t.mul(alloc, &other[i])?)?;
        row.push(c)?;
    }
    Ok(row)
}
