ghost use Rattle.std.specs.Prelude.{◌≡◌, ℕ, suc, IfOk, IfErr, IfSome, IfNone};
ghost use Rattle.sg_algebra.proofs.Value.{Value};
ghost use Rattle.sg_num.specs.Stopped.{KeepsWideStep};
ghost use Rattle.sg_ratfun.specs.Fractions.{ratio};
ghost use Rattle.sg_spec.specs.Canonical.{Plane, plane_of};
ghost use Rattle.sg_build.specs.Letters.{letter, LawsOfForms};

use sg_canonical::{Quotient, primitive_quotient};
use sg_num::{Field, Rat, Stop};
use sg_ratfun::RatFun;
use std::alloc::Global;

/// A field of constants whose last variable, if it has one, is the parameter.
pub trait Letters: Field {
    /// As which quotient of polynomials in the variable and the parameter, with whole coefficients, a rational function is
    /// written.
    ghost form: { (d : ℕ) → Value (suc d) → Plane → Plane → Type 0 };

    /// The parameter; None exactly where the field has no variable.
    fn param(alloc: Global) -> Result<Option<Self>, Stop>
        ensures some { IfOk result (λ o. IfSome o (λ x. Self.val x ≡ letter Self.vars)) }
        ensures is_there { IfOk result (λ o. IfSome o (λ _. ¬ (Self.vars ≡ 0))) }
        ensures none { IfOk result (λ o. IfNone o (Self.vars ≡ 0)) }
        ensures wide { IfErr result KeepsWideStep };

    /// The quotient as which a rational function is written: in lowest terms, with whole coefficients that have no common
    /// divisor, the leading one below above 0.
    fn whole_form(alloc: Global, r: &RatFun<Self>) -> Result<Quotient, Stop>
        ensures value { IfOk result (λ q. form Self.vars (ratio Self.val r.now) (plane_of q.upper) (plane_of q.lower)) }
        ensures wide { IfErr result KeepsWideStep };

    /// There is one such quotient, with the values of the function.
    ghost forms: { LawsOfForms Self.vars (form Self.vars) };
}

/// The fractions have no parameter.
impl Letters for Rat {
    ghost use Rattle.sg_build.specs.Forms.{form_of_rats};
    ghost use Rattle.sg_build.specs.FormLaws.{forms_of_rats};

    ghost form = { form_of_rats };

    ghost forms = { forms_of_rats };

    fn param(alloc: Global) -> Result<Option<Rat>, Stop> {
        Ok(None)
    }

    fn whole_form(alloc: Global, r: &RatFun<Rat>) -> Result<Quotient, Stop> {
        let upper = r.num(alloc)?;
        let lower = r.den(alloc)?;
        let q = primitive_quotient(alloc, upper.coeffs(), lower.coeffs())?;
        Ok(q)
    }
}
