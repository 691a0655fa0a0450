ghost use Rattle.std.specs.Prelude.{◌≡◌, length, IfOk, IfErr};
ghost use Rattle.sg_algebra.specs.Coefficients.{Each};
ghost use Rattle.sg_algebra.proofs.Value.{zero_value};
ghost use Rattle.sg_num.specs.Stopped.{KeepsWideStep};
ghost use Rattle.sg_ratfun.specs.Fractions.{ratio};
ghost use Rattle.sg_tower.specs.Elements.{IsShifted};
ghost use Rattle.sg_laurent.specs.Elements.{exponents};
ghost use Rattle.sg_products.specs.Readings.{laurents, IsShiftedTerm};

use crate::powers::factor;
use sg_laurent::{Laurent, Term};
use sg_num::{Field, Stop};
use sg_ratfun::RatFun;
use std::alloc::Global;

/// The element with k + 1 for k, where each product goes to its factor times itself (Karr 1981).
pub fn shifted<F: Field>(
    alloc: Global,
    alphas: &[RatFun<F>],
    e: &Laurent<RatFun<F>>,
) -> Result<Laurent<RatFun<F>>, Stop>
    requires { Each (λ a. ¬ (ratio F.val a ≡ zero_value)) alphas.now }
    ensures value { IfOk result (IsShifted (laurents F.val alphas.now) e.now) }
    ensures wide { IfErr result KeepsWideStep }
{
    let n = alphas.len();
    let terms = e.terms(n);
    let mut r = Laurent::zero(alloc, n);
    for i in 0..terms.len() {
        let t = shifted_term(alloc, alphas, &terms[i])?;
        r = r.with_term(alloc, n, t)?;
    }
    Ok(r)
}

// The term with k + 1 for k.
fn shifted_term<F: Field>(
    alloc: Global,
    alphas: &[RatFun<F>],
    t: &Term<RatFun<F>>,
) -> Result<Term<RatFun<F>>, Stop>
    requires some { Each (λ a. ¬ (ratio F.val a ≡ zero_value)) alphas.now }
    requires fit { length (exponents t.now) ≡ length alphas.now }
    ensures value { IfOk result (IsShiftedTerm F.val alphas.now t.now) }
    ensures fit { IfOk result (λ r. length (exponents r) ≡ length alphas.now) }
    ensures wide { IfErr result KeepsWideStep }
{
    let factor = factor(alloc, alphas, t.exps.as_slice())?;
    let moved = t.coeff.shift_by(alloc, 1)?;
    let coeff = factor.mul(alloc, &moved)?;
    let r = t.with_coefficient(alloc, coeff)?;
    Ok(r)
}
