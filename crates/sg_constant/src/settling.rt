ghost use Rattle.std.specs.Prelude.{◌≡◌, ◌<◌, length, OnOk, IfErr};
ghost use Rattle.sg_algebra.proofs.Value.{one_value, neg_value, ◌*ᵛ◌};
ghost use Rattle.sg_num.specs.Stopped.{KeepsWideStep};
ghost use Rattle.sg_poly.specs.Polynomials.{polynomial};
ghost use Rattle.sg_reduction_theory.proofs.Places.{Fits, Good};
ghost use Rattle.sg_constant.specs.Shares.{polys, share, shares, lower_at, IsJoint, Settling};

use crate::joining::joined;
use crate::moving::{Factors, carried};
use crate::planning::{Met, planned};
use crate::shares::{Share, State};
use crate::splitting::split;
use sg_num::{Field, Stop};
use std::alloc::Global;

// Adds the share to those that are settled: where its denominator has factors with images in common with each other or with
// another denominator, these are split off first; what is left is moved to the denominator that it meets, and joined with it.
pub(crate) fn settle<F: Field>(
    alloc: Global,
    factors: &Factors<F>,
    state: &mut State<F>,
    s: Share<F>,
) -> Result<(), Stop>
    requires inverse { F.val factors.now.a *ᵛ F.val factors.now.inverse ≡ one_value }
    requires minus { F.val factors.now.minus ≡ neg_value one_value }
    requires fits { Fits (share F.val s) }
    requires good { Good (length (polys F.val s.uppers)) (shares F.val state.old.settled) }
    ensures settles { OnOk result (Settling F.val (F.val factors.now.a) s state.old state.new) }
    ensures wide { IfErr result KeepsWideStep }
{
    let next = planned(alloc, &s.lower, state.settled.as_slice())?;
    match next.cut {
        Some(by) => {
            let parts = split(alloc, s.uppers.as_slice(), by)?;
            settle(alloc, factors, state, parts.first)?;
            settle(alloc, factors, state, parts.second)?;
        }
        None => match next.at {
            Some(at) => merge(alloc, factors, state, s, at)?,
            None => state.settled.push(s)?,
        },
    }
    Ok(())
}

// Joins the share with the one that it meets.
fn merge<F: Field>(
    alloc: Global,
    factors: &Factors<F>,
    state: &mut State<F>,
    s: Share<F>,
    at: Met,
) -> Result<(), Stop>
    requires inverse { F.val factors.now.a *ᵛ F.val factors.now.inverse ≡ one_value }
    requires minus { F.val factors.now.minus ≡ neg_value one_value }
    requires fits { Fits (share F.val s) }
    requires good { Good (length (polys F.val s.uppers)) (shares F.val state.old.settled) }
    requires within { at.place < length state.old.settled }
    requires joint { IsJoint (polynomial F.val s.lower) (polynomial F.val (lower_at state.old.settled at.place)) at.shift }
    ensures settles { OnOk result (Settling F.val (F.val factors.now.a) s state.old state.new) }
    ensures wide { IfErr result KeepsWideStep }
{
    let r = carried(alloc, factors, &mut state.moved, s, at.shift)?;
    let other = state.settled.remove(at.place);
    let both = joined(alloc, &other, &r)?;
    state.settled.push(both)?;
    Ok(())
}
