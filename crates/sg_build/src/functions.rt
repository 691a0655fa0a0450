ghost use Rattle.std.specs.Prelude.{◌≡◌, ℕ, ℤ, IfOk, IfErr};
ghost use Rattle.sg_algebra.proofs.Value.{Value};
ghost use Rattle.sg_num.specs.Stopped.{KeepsWideStep};
ghost use Rattle.sg_ratfun.specs.Fractions.{ratio};
ghost use Rattle.sg_expr.specs.Tree.{tree_of};
ghost use Rattle.sg_value_theory.proofs.Divisors.{IsPolynomial};
ghost use Rattle.sg_value_theory.proofs.RationalPlaces.{variable};
ghost use Rattle.sg_build.specs.Letters.{letter, HasNoLetter};
ghost use Rattle.sg_build.specs.Placed.{IsFunctionOf, IsFunctionOver, HasSomeValue};

use crate::letters::Letters;
use crate::numbers::{natural_power, parameter, whole};
use sg_expr::Expr;
use sg_num::{Field, Stop};
use sg_poly::Poly;
use sg_ratfun::RatFun;
use std::alloc::Global;

/// The rational function of a polynomial: it has the value of the polynomial everywhere.
pub fn function_of<K: Letters>(alloc: Global, e: &Expr) -> Result<RatFun<K>, Stop>
    requires polynomial { IsPolynomial (tree_of e.now) }
    requires no_letter { HasNoLetter K.vars (tree_of e.now) }
    ensures value { IfOk result (λ r. IsFunctionOf (letter K.vars) (tree_of e.now) (ratio K.val r)) }
    ensures wide { IfErr result KeepsWideStep }
{
    match e {
        Expr::Num(c) => {
            let x: K = whole(alloc, c)?;
            let r = RatFun::from_constant(alloc, x)?;
            Ok(r)
        }
        Expr::Here => {
            let r = variable(alloc)?;
            Ok(r)
        }
        Expr::Param => {
            let x: K = parameter(alloc)?;
            let r = RatFun::from_constant(alloc, x)?;
            Ok(r)
        }
        Expr::Add(a, b) => {
            let x: RatFun<K> = function_of(alloc, a)?;
            let y: RatFun<K> = function_of(alloc, b)?;
            let r = x.add(alloc, &y)?;
            Ok(r)
        }
        Expr::Neg(a) => {
            let x: RatFun<K> = function_of(alloc, a)?;
            let none: RatFun<K> = Field::zero(alloc)?;
            let r = none.sub(alloc, &x)?;
            Ok(r)
        }
        Expr::Mul(a, b) => {
            let x: RatFun<K> = function_of(alloc, a)?;
            let y: RatFun<K> = function_of(alloc, b)?;
            let r = x.mul(alloc, &y)?;
            Ok(r)
        }
        Expr::Pow(a, n) => {
            let x: RatFun<K> = function_of(alloc, a)?;
            let r = natural_power(alloc, &x, *n)?;
            Ok(r)
        }
        // none of these stands in a polynomial
        Expr::Div(_, _) | Expr::Sum { .. } | Expr::Prod { .. } => unreachable!(),
    }
}

/// 1 over the rational function of a polynomial that somewhere has a value other than 0.
pub fn function_over<K: Letters>(alloc: Global, e: &Expr) -> Result<RatFun<K>, Stop>
    requires polynomial { IsPolynomial (tree_of e.now) }
    requires no_letter { HasNoLetter K.vars (tree_of e.now) }
    requires somewhere { HasSomeValue (letter K.vars) (tree_of e.now) }
    ensures value { IfOk result (λ r. IsFunctionOver (letter K.vars) (tree_of e.now) (ratio K.val r)) }
    ensures wide { IfErr result KeepsWideStep }
{
    let x: RatFun<K> = function_of(alloc, e)?;
    let one: RatFun<K> = Field::one(alloc)?;
    let r = one.div(alloc, &x)?;
    Ok(r)
}

// The function k.
fn variable<K: Field>(alloc: Global) -> Result<RatFun<K>, Stop>
    ensures value { IfOk result (λ r. ratio K.val r ≡ variable K.vars) }
    ensures wide { IfErr result KeepsWideStep }
{
    let one = K::one(alloc)?;
    let p = Poly::monomial(alloc, one, 1)?;
    let r = RatFun::from_poly(alloc, p)?;
    Ok(r)
}
