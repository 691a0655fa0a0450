ghost use Rattle.std.specs.Prelude.{◌≡◌, ℤ, pos, ◌<◌, ◌<ℤ◌, ◌≤ℤ◌, AllPairs, Contains, length, map, IfOk, IfErr, IfSome, IfNone, IsSome};
ghost use Rattle.sg_algebra.specs.Coefficients.{Each};
ghost use Rattle.sg_algebra.proofs.Polynomial.{zero_polynomial};
ghost use Rattle.sg_num.specs.Stopped.{KeepsWideStep};
ghost use Rattle.sg_poly.specs.Divisors.{IsMonic};
ghost use Rattle.sg_poly.specs.Polynomials.{polynomial};
ghost use Rattle.sg_first_order_theory.proofs.Next.{moved_polynomial};
ghost use Rattle.sg_spread.specs.Shifts.{Meets};
ghost use Rattle.sg_constant.specs.Shares.{shares, lower_at, IsCut, IsFree, IsJointAt, IsMeeting, IsGreatest, HasLowers};

use crate::parting::{Parts, parted};
use crate::shares::Share;
use sg_num::{Field, Row, Stop};
use sg_poly::Poly;
use sg_spread::spread;
use std::alloc::Global;

// A place in the list, and the shift at which a denominator meets the one there.
#[derive(Drop)]
pub(crate) struct Met {
    pub(crate) place: usize,
    pub(crate) shift: i128,
}

// What is done with a share: its denominator is cut, or it is joined with the one at a place, or neither.
#[derive(Drop)]
pub(crate) struct Plan<F: Field> {
    pub(crate) cut: Option<Parts<F>>,
    pub(crate) at: Option<Met>,
}

// What is to be done with a share over w, where the list is settled.
pub(crate) fn planned<F: Field>(
    alloc: Global,
    w: &Poly<F>,
    list: &[Share<F>],
) -> Result<Plan<F>, Stop>
    requires left { ¬ (polynomial F.val w.now ≡ zero_polynomial) }
    requires right { HasLowers (shares F.val list.now) }
    ensures cut { IfOk result (λ r. IfSome r.cut (λ by. IsCut F.val w.now by.common by.rest)) }
    ensures joint { IfOk result (λ r. IfNone r.cut (IfSome r.at (λ at. IsJointAt F.val w.now list.now at.place at.shift))) }
    ensures free { IfOk result (λ r. IfNone r.cut (IfNone r.at (IsFree (polynomial F.val w.now) (shares F.val list.now)))) }
    ensures wide { IfErr result KeepsWideStep }
{
    let own = spread(alloc, w, w)?;
    match greatest(&own) {
        Some(m) => {
            let by = meeting(alloc, w, w, m)?;
            Ok(Plan {
                cut: Some(by),
                at: None,
            })
        }
        None => {
            let plan = other_plan(alloc, w, list)?;
            Ok(plan)
        }
    }
}

// The last of ascending numbers, where it is positive.
fn greatest(shifts: &Row<i128>) -> Option<i128>
    requires { AllPairs ◌<ℤ◌ shifts.now }
    ensures some { IfSome result (IsGreatest shifts.now) }
    ensures none { IfNone result ((m : ℤ) → Contains shifts.now m → m ≤ℤ pos 0) }
{
    let n = shifts.len();
    if n == 0 {
        return None;
    }
    let m = *shifts.get(n - 1);
    if m > 0 { Some(m) } else { None }
}

// The parts of a denominator by what it has in common with the other one at k + m.
fn meeting<F: Field>(alloc: Global, w: &Poly<F>, v: &Poly<F>, m: i128) -> Result<Parts<F>, Stop>
    requires { ¬ (polynomial F.val w.now ≡ zero_polynomial) }
    ensures meeting { IfOk result (λ r. IsMeeting (polynomial F.val w.now) (moved_polynomial m (polynomial F.val v.now)) (polynomial F.val r.common)
        (polynomial F.val r.rest)) }
    ensures monic { IfOk result (λ r. IsMonic (map F.val r.common)) }
    ensures wide { IfErr result KeepsWideStep }
{
    let shifted = v.shift_by(alloc, m)?;
    let e = w.gcd(alloc, &shifted)?;
    let r = parted(alloc, w, &e)?;
    Ok(r)
}

// The plan for a denominator that meets itself at no positive shift.
fn other_plan<F: Field>(alloc: Global, w: &Poly<F>, list: &[Share<F>]) -> Result<Plan<F>, Stop>
    requires left { ¬ (polynomial F.val w.now ≡ zero_polynomial) }
    requires right { HasLowers (shares F.val list.now) }
    ensures cut { IfOk result (λ r. IfSome r.cut (λ by. IsCut F.val w.now by.common by.rest)) }
    ensures joint { IfOk result (λ r. IfNone r.cut (IfSome r.at (λ at. IsJointAt F.val w.now list.now at.place at.shift))) }
    ensures none { IfOk result (λ r. IfNone r.cut (IfNone r.at (Each (λ t. (m : ℤ) → ¬ Meets (map F.val w.now) (map F.val t.lower) m) list.now))) }
    ensures wide { IfErr result KeepsWideStep }
{
    let met = first_met(alloc, w, list)?;
    match met {
        Some(at) => {
            let plan = met_plan(alloc, w, list, at)?;
            Ok(plan)
        }
        None => Ok(Plan {
            cut: None,
            at: None,
        }),
    }
}

// The first of the shares whose denominator has an image with a divisor in common with w.
fn first_met<F: Field>(alloc: Global, w: &Poly<F>, list: &[Share<F>]) -> Result<Option<Met>, Stop>
    requires left { ¬ (polynomial F.val w.now ≡ zero_polynomial) }
    requires right { HasLowers (shares F.val list.now) }
    ensures some { IfOk result (λ o. IfSome o (λ at. (at.place < length list.now) × Meets (map F.val w.now) (map F.val
        (lower_at list.now at.place)) at.shift)) }
    ensures none { IfOk result (λ o. IfNone o (Each (λ t. (m : ℤ) → ¬ Meets (map F.val w.now) (map F.val t.lower) m) list.now)) }
    ensures wide { IfErr result KeepsWideStep }
{
    for i in 0..list.len() {
        let met = first_shift(alloc, w, &list[i].lower)?;
        if let Some(shift) = met {
            return Ok(Some(Met { place: i, shift }));
        }
    }
    Ok(None)
}

// The first of the shifts at which two denominators meet.
fn first_shift<F: Field>(alloc: Global, w: &Poly<F>, v: &Poly<F>) -> Result<Option<i128>, Stop>
    requires left { ¬ (polynomial F.val w.now ≡ zero_polynomial) }
    requires right { ¬ (polynomial F.val v.now ≡ zero_polynomial) }
    ensures some { IfOk result (λ o. IfSome o (λ m. Meets (map F.val w.now) (map F.val v.now) m)) }
    ensures none { IfOk result (λ o. IfNone o ((m : ℤ) → ¬ Meets (map F.val w.now) (map F.val v.now) m)) }
    ensures wide { IfErr result KeepsWideStep }
{
    let shifts = spread(alloc, w, v)?;
    let n = shifts.len();
    if n == 0 {
        return Ok(None);
    }
    let m = *shifts.get(0);
    Ok(Some(m))
}

// The plan for a denominator that meets that of a share in the list: it is cut where not all of it meets.
fn met_plan<F: Field>(
    alloc: Global,
    w: &Poly<F>,
    list: &[Share<F>],
    at: Met,
) -> Result<Plan<F>, Stop>
    requires some { ¬ (polynomial F.val w.now ≡ zero_polynomial) }
    requires within { at.place < length list.now }
    requires meets { Meets (map F.val w.now) (map F.val (lower_at list.now at.place)) at.shift }
    ensures cut { IfOk result (λ r. IfSome r.cut (λ by. IsCut F.val w.now by.common by.rest)) }
    ensures joint { IfOk result (λ r. IfNone r.cut (IfSome r.at (λ at. IsJointAt F.val w.now list.now at.place at.shift))) }
    ensures some { IfOk result (λ r. IfNone r.cut (IsSome r.at)) }
    ensures wide { IfErr result KeepsWideStep }
{
    let by = meeting(alloc, w, &list[at.place].lower, at.shift)?;
    if by.rest.coeffs().len() > 1 {
        return Ok(Plan {
            cut: Some(by),
            at: None,
        });
    }
    Ok(Plan {
        cut: None,
        at: Some(at),
    })
}
