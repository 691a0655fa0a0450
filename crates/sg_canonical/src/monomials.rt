ghost use Rattle.std.specs.Prelude.{◌≡◌, ◌≢◌, ◌∷◌, ◌++◌, [], pos, ◌<ℤ◌, unsigned_abs, cond, map, IfOk, IfErr, OnOk};
ghost use Rattle.sg_num.specs.Stopped.{KeepsWideStep};
ghost use Rattle.sg_expr.specs.Tree.{tree_of};
ghost use Rattle.sg_spec.specs.Canonical.{monomial, monomials, monomial_terms, plain_term, polynomial_tree, leads_below, negated, lower_factors, one_term, of_coefficient, plane_of};
ghost use Rattle.sg_canonical.specs.Signs.{signed_of};

use crate::factors::{above, factor};
use crate::signs::{Signed, total_tree};
use crate::whole::{opposite, opposites};
use sg_expr::Expr;
use sg_num::{Row, Stop};
use std::alloc::{AllocError, Global};

/// Adds the terms of a polynomial with these factors above and below: its own where there are none, else one.
pub fn push_coefficient(
    alloc: Global,
    p: &[i128],
    uppers: Row<Expr>,
    lowers: Row<Expr>,
    out: &mut Row<Signed>,
) -> Result<(), Stop>
    ensures terms { OnOk result (map signed_of out.new ≡ map signed_of out.old ++ of_coefficient (plane_of p.now) (map tree_of uppers) (map tree_of lowers)) }
    ensures wide { IfErr result KeepsWideStep }
{
    if uppers.is_empty() && lowers.is_empty() {
        return push_monomials(alloc, p, out);
    }
    let s = one_term(alloc, p, uppers, lowers)?;
    out.push(s)?;
    Ok(())
}

/// The factor below of a polynomial: none where it is 1.
pub fn lower_factors(alloc: Global, q: &[i128]) -> Result<Row<Expr>, Stop>
    ensures factors { IfOk result (λ r. map tree_of r ≡ lower_factors (plane_of q.now)) }
    ensures wide { IfErr result KeepsWideStep }
{
    let mut row = Row::new(alloc);
    let t = polynomial_tree(alloc, q)?;
    if t.same(&Expr::Num(1)) {
        return Ok(row);
    }
    row.push(t)?;
    Ok(row)
}

// One term: the polynomial with these factors above and below, with one sign.
fn one_term(alloc: Global, p: &[i128], uppers: Row<Expr>, lowers: Row<Expr>) -> Result<Signed, Stop>
    ensures term { IfOk result (λ s. signed_of s ≡ one_term (plane_of p.now) (map tree_of uppers) (map tree_of lowers)) }
    ensures wide { IfErr result KeepsWideStep }
{
    let minus = leads_below(p);
    let numerator = turned_tree(alloc, minus, p)?;
    Ok(Signed {
        minus,
        numerator,
        uppers,
        lowers,
    })
}

// Whether the first coefficient that isn't 0 is below 0.
fn leads_below(p: &[i128]) -> bool
    ensures { result ≡ leads_below (monomials (plane_of p.now)) }
{
    match p.split_first() {
        None => false,
        Some((c, rest)) => { if *c == 0 { leads_below(rest) } else { *c < 0 } }
    }
}

// The tree of the polynomial, or of the opposite one.
fn turned_tree(alloc: Global, turn: bool, p: &[i128]) -> Result<Expr, Stop>
    ensures tree { IfOk result (λ t. tree_of t ≡ polynomial_tree (cond turn (negated (plane_of p.now)) (plane_of p.now))) }
    ensures wide { IfErr result KeepsWideStep }
{
    if !turn {
        let t = polynomial_tree(alloc, p)?;
        return Ok(t);
    }
    let q = opposites(alloc, p)?;
    let t = polynomial_tree(alloc, q.as_slice())?;
    Ok(t)
}

// The tree of a polynomial.
fn polynomial_tree(alloc: Global, p: &[i128]) -> Result<Expr, Stop>
    ensures tree { IfOk result (λ t. tree_of t ≡ polynomial_tree (plane_of p.now)) }
    ensures wide { IfErr result KeepsWideStep }
{
    let mut terms = Row::new(alloc);
    push_monomials(alloc, p, &mut terms)?;
    let t = total_tree(alloc, false, terms.as_slice())?;
    Ok(t)
}

// Adds the terms of a polynomial, the highest first.
fn push_monomials(alloc: Global, p: &[i128], out: &mut Row<Signed>) -> Result<(), Stop>
    ensures terms { OnOk result (map signed_of out.new ≡ map signed_of out.old ++ monomials (plane_of p.now)) }
    ensures wide { IfErr result KeepsWideStep }
{
    match p.split_first() {
        None => Ok(()),
        Some((c, rest)) => {
            push_monomial(alloc, *c, rest.len(), out)?;
            push_monomials(alloc, rest, out)
        }
    }
}

// Adds the term of the degree e, where it isn't 0.
fn push_monomial(alloc: Global, c: i128, e: usize, out: &mut Row<Signed>) -> Result<(), Stop>
    ensures terms { OnOk result (map signed_of out.new ≡ map signed_of out.old ++ monomial_terms c e 0) }
    ensures wide { IfErr result KeepsWideStep }
{
    if c == 0 {
        return Ok(());
    }
    let s = term(alloc, c, e)?;
    out.push(s)?;
    Ok(())
}

// The term of the degree e. The size of the coefficient -2^127 doesn't fit.
fn term(alloc: Global, c: i128, e: usize) -> Result<Signed, Stop>
    requires { c ≢ pos 0 }
    ensures term { IfOk result (λ s. monomial_terms c e 0 ≡ signed_of s ∷ []) }
    ensures wide { IfErr result KeepsWideStep }
{
    if c > 0 {
        let t = monomial(alloc, c, e)?;
        return Ok(plain(alloc, false, t));
    }
    let size = opposite(c)?;
    let t = monomial(alloc, size, e)?;
    Ok(plain(alloc, true, t))
}

// The monomial of the degree e whose coefficient is above 0.
fn monomial(alloc: Global, c: i128, e: usize) -> Result<Expr, AllocError>
    requires { pos 0 <ℤ c }
    ensures { IfOk result (λ t. tree_of t ≡ monomial (unsigned_abs c) e 0) }
{
    let power = factor(alloc, &Expr::Here, e as u128)?;
    let t = above(alloc, &Expr::Num(c), power.as_slice())?;
    Ok(t)
}

// A term without factors.
fn plain(alloc: Global, minus: bool, numerator: Expr) -> Signed
    ensures { signed_of result ≡ plain_term minus (tree_of numerator) }
{
    Signed {
        minus,
        numerator,
        uppers: Row::new(alloc),
        lowers: Row::new(alloc),
    }
}
