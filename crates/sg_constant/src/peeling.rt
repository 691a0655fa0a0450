ghost use Rattle.std.specs.Prelude.{◌≡◌, ◌<◌, length, OnOk, IfOk, IfErr};
ghost use Rattle.sg_algebra.proofs.Value.{one_value, neg_value, ◌*ᵛ◌};
ghost use Rattle.sg_algebra.proofs.Polynomial.{zero_polynomial};
ghost use Rattle.sg_num.specs.Stopped.{KeepsWideStep};
ghost use Rattle.sg_poly.specs.Polynomials.{polynomial};
ghost use Rattle.sg_reduction_theory.proofs.Places.{Fits, Good};
ghost use Rattle.sg_constant.specs.Shares.{polys, share, shares, Settling, Peeling};

use crate::moving::Factors;
use crate::parting::parted;
use crate::settling::settle;
use crate::shares::{Share, State};
use crate::splitting::split;
use sg_num::{Field, Stop};
use sg_poly::Poly;
use std::alloc::Global;

// Settles the share, its denominator split first at the roots that the field guesses: so the others are looked for in a smaller one.
pub(crate) fn peeled<F: Field>(
    alloc: Global,
    factors: &Factors<F>,
    state: &mut State<F>,
    s: Share<F>,
) -> Result<(), Stop>
    requires inverse { F.val factors.now.a *ᵛ F.val factors.now.inverse ≡ one_value }
    requires minus { F.val factors.now.minus ≡ neg_value one_value }
    requires fits { Fits (share F.val s) }
    requires good { Good (length (polys F.val s.uppers)) (shares F.val state.old.settled) }
    ensures settles { OnOk result (Settling F.val (F.val factors.now.a) s state.old state.new) }
    ensures wide { IfErr result KeepsWideStep }
{
    let roots = s.lower.rational_roots(alloc)?;
    let mut left = s;
    for i in 0..roots.len() {
        let e = Poly::linear(alloc, roots.get(i))?;
        left = peeled_once(alloc, factors, state, left, &e)?;
    }
    settle(alloc, factors, state, left)?;
    Ok(())
}

// The share over the factor of its denominator that is coprime to e, after the one over the other factor is settled.
fn peeled_once<F: Field>(
    alloc: Global,
    factors: &Factors<F>,
    state: &mut State<F>,
    s: Share<F>,
    e: &Poly<F>,
) -> Result<Share<F>, Stop>
    requires inverse { F.val factors.now.a *ᵛ F.val factors.now.inverse ≡ one_value }
    requires minus { F.val factors.now.minus ≡ neg_value one_value }
    requires fits { Fits (share F.val s) }
    requires good { Good (length (polys F.val s.uppers)) (shares F.val state.old.settled) }
    requires some { ¬ (polynomial F.val e.now ≡ zero_polynomial) }
    ensures peels { IfOk result (λ r. Peeling F.val (F.val factors.now.a) s state.old r state.new) }
    ensures wide { IfErr result KeepsWideStep }
{
    let by = parted(alloc, &s.lower, e)?;
    if by.rest.coeffs().len() > 1 {
        let parts = split(alloc, s.uppers.as_slice(), by)?;
        settle(alloc, factors, state, parts.first)?;
        return Ok(parts.second);
    }
    Ok(s)
}
