ghost use Rattle.std.specs.Prelude.{◌≡◌, [], false, map, IfOk, IfErr};
ghost use Rattle.sg_num.specs.Stopped.{KeepsWideStep};
ghost use Rattle.sg_num.specs.Value.{number};
ghost use Rattle.sg_expr.specs.Tree.{tree_of};
ghost use Rattle.sg_ratfun.specs.Fractions.{ratio};
ghost use Rattle.sg_spec.specs.Generators.{Over};
ghost use Rattle.sg_spec.specs.Printing.{InForm};
ghost use Rattle.sg_spec.specs.Canonical.{IsCanonicalOver, element_tree, of_coefficient, lower_factors, plane_of};
ghost use Rattle.sg_canonical.specs.Signs.{signed_of};
ghost use Rattle.sg_canonical.specs.Rational.{quotient_terms, IsRationalTree, HasValuesOf};

use crate::monomials::{lower_factors, push_coefficient};
use crate::quotient::{Quotient, primitive_quotient};
use crate::signs::{Signed, total_tree};
use sg_expr::Expr;
use sg_num::{Rat, Row, Stop};
use sg_ratfun::RatFun;
use std::alloc::Global;

/// The canonical tree of a rational function of the variable: the quotient of its numerator and denominator with whole
/// coefficients that have no common divisor, the leading one below above 0, each polynomial as its monomials, the highest
/// first. Equal functions have one tree. The error is out of memory, or a step that doesn't fit 128 bits.
pub fn rational_tree(alloc: Global, r: &RatFun<Rat>) -> Result<Expr, Stop>
    ensures tree { IfOk result (λ t. IsRationalTree (ratio number r.now) (tree_of t)) }
    ensures canonical { IfOk result (λ t. IsCanonicalOver [] [] (tree_of t)) }
    ensures over { IfOk result (λ t. Over [] (tree_of t)) }
    ensures form { IfOk result (λ t. InForm false false (tree_of t)) }
    ensures value { IfOk result (λ t. HasValuesOf r.now (tree_of t)) }
    ensures wide { IfErr result KeepsWideStep }
{
    let upper = r.num(alloc)?;
    let lower = r.den(alloc)?;
    let quotient = primitive_quotient(alloc, upper.coeffs(), lower.coeffs())?;
    let t = quotient_tree(alloc, &quotient)?;
    Ok(t)
}

// The tree of the quotient of two polynomials.
fn quotient_tree(alloc: Global, q: &Quotient) -> Result<Expr, Stop>
    ensures tree { IfOk result (λ t. tree_of t ≡ element_tree [] [] (quotient_terms q.now.upper q.now.lower)) }
    ensures wide { IfErr result KeepsWideStep }
{
    if q.upper.is_empty() {
        return Ok(Expr::Num(0));
    }
    let terms = signed_terms(alloc, q)?;
    let t = total_tree(alloc, false, terms.as_slice())?;
    Ok(t)
}

// The terms of the quotient of two polynomials.
fn signed_terms(alloc: Global, q: &Quotient) -> Result<Row<Signed>, Stop>
    ensures terms { IfOk result (λ r. map signed_of r ≡ of_coefficient (plane_of q.now.upper) [] (lower_factors (plane_of q.now.lower))) }
    ensures wide { IfErr result KeepsWideStep }
{
    let mut terms = Row::new(alloc);
    let lowers = lower_factors(alloc, q.lower.as_slice())?;
    push_coefficient(
        alloc,
        q.upper.as_slice(),
        Row::new(alloc),
        lowers,
        &mut terms,
    )?;
    Ok(terms)
}
