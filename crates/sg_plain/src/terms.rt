ghost use Rattle.std.specs.Prelude.{◌≡◌, ◌≢◌, pos, ◌<ℤ◌, ◌*ℤ◌, neg_ℤ, unsigned_abs, map, IfOk, OnOk, ◌++◌};
ghost use Rattle.sg_expr.specs.Tree.{tree_of};
ghost use Rattle.sg_algebra.specs.Coefficients.{Each};
ghost use Rattle.sg_canonical.specs.Whole.{IsSmall};
ghost use Rattle.sg_plain.specs.Terms.{term};
ghost use Rattle.sg_spec.specs.Tree.{numeral, add, neg, div};
ghost use Rattle.sg_plain.specs.Terms.{variable_power, monomial, with_term, with_terms, numerator, leads_below_zero, canonical};

use crate::products::opposite;
use sg_expr::Expr;
use sg_num::Row;
use std::alloc::{AllocError, Global};

/// The tree of the polynomial with these whole coefficients, the highest first, over this denominator.
pub fn canonical_tree(
    alloc: Global,
    coefficients: &[i128],
    denominator: i128,
) -> Result<Expr, AllocError>
    requires positive { pos 0 <ℤ denominator }
    requires small { Each IsSmall coefficients.now }
    ensures { IfOk result (λ t. tree_of t ≡ canonical coefficients.now (unsigned_abs denominator)) }
{
    if denominator == 1 {
        let t = numerator(alloc, coefficients)?;
        return Ok(t);
    }
    if !leads_below_zero(coefficients) {
        let t = numerator(alloc, coefficients)?;
        let t = divided(alloc, t, denominator)?;
        return Ok(t);
    }
    let opposites = opposites(alloc, coefficients)?;
    let t = numerator(alloc, opposites.as_slice())?;
    let t = divided(alloc, t, denominator)?;
    let t = negated(alloc, t)?;
    Ok(t)
}

// The opposites of small numbers.
fn opposites(alloc: Global, list: &[i128]) -> Result<Row<i128>, AllocError>
    requires { Each IsSmall list.now }
    ensures value { IfOk result (λ r. r ≡ map neg_ℤ list.now) }
    ensures small { IfOk result (λ r. Each IsSmall r) }
{
    let mut result = Row::new(alloc);
    push_opposites(list, &mut result)?;
    Ok(result)
}

// Adds the opposites of small numbers.
fn push_opposites(list: &[i128], out: &mut Row<i128>) -> Result<(), AllocError>
    requires { Each IsSmall list.now }
    ensures { OnOk result (out.new ≡ out.old ++ map neg_ℤ list.now) }
{
    match list.split_first() {
        None => Ok(()),
        Some((c, rest)) => {
            out.push(opposite(*c))?;
            push_opposites(rest, out)
        }
    }
}

// The sum of the terms of these coefficients.
fn numerator(alloc: Global, coefficients: &[i128]) -> Result<Expr, AllocError>
    requires { Each IsSmall coefficients.now }
    ensures { IfOk result (λ t. tree_of t ≡ numerator coefficients.now) }
{
    match coefficients.split_first() {
        None => Ok(Expr::Num(0)),
        Some((c, rest)) => {
            if *c == 0 {
                return numerator(alloc, rest);
            }
            let first = term(alloc, *c, rest.len())?;
            with_terms(alloc, first, rest)
        }
    }
}

// The sum t with the terms of these coefficients.
fn with_terms(alloc: Global, t: Expr, coefficients: &[i128]) -> Result<Expr, AllocError>
    requires { Each IsSmall coefficients.now }
    ensures { IfOk result (λ s. tree_of s ≡ with_terms (tree_of t) coefficients.now) }
{
    match coefficients.split_first() {
        None => Ok(t),
        Some((c, rest)) => {
            let t = with_term(alloc, t, *c, rest.len())?;
            with_terms(alloc, t, rest)
        }
    }
}

// The sum t with one more term.
fn with_term(alloc: Global, t: Expr, c: i128, e: usize) -> Result<Expr, AllocError>
    requires { IsSmall c }
    ensures { IfOk result (λ s. tree_of s ≡ with_term (tree_of t) c e) }
{
    if c == 0 {
        return Ok(t);
    }
    let more = term(alloc, c, e)?;
    let all = sum_of(alloc, t, more)?;
    Ok(all)
}

// The sum of two trees.
fn sum_of(alloc: Global, s: Expr, t: Expr) -> Result<Expr, AllocError>
    ensures { IfOk result (λ r. tree_of r ≡ add (tree_of s) (tree_of t)) }
{
    let left = Box::new(alloc, s)?;
    let right = Box::new(alloc, t)?;
    Ok(Expr::Add(left, right))
}

// The term of the degree e, with its sign.
fn term(alloc: Global, c: i128, e: usize) -> Result<Expr, AllocError>
    requires some { c ≢ pos 0 }
    requires small { IsSmall c }
    ensures { IfOk result (λ t. tree_of t ≡ term c e) }
{
    if c > 0 {
        let t = monomial(alloc, c, e)?;
        return Ok(t);
    }
    let t = monomial(alloc, opposite(c), e)?;
    let t = negated(alloc, t)?;
    Ok(t)
}

// The term of the degree e whose coefficient is above 0.
fn monomial(alloc: Global, c: i128, e: usize) -> Result<Expr, AllocError>
    requires { pos 0 <ℤ c }
    ensures { IfOk result (λ t. tree_of t ≡ monomial (unsigned_abs c) e) }
{
    if e == 0 {
        return Ok(Expr::Num(c));
    }
    let power = variable_power(alloc, e)?;
    if c == 1 {
        return Ok(power);
    }
    let left = Box::new(alloc, Expr::Num(c))?;
    let right = Box::new(alloc, power)?;
    Ok(Expr::Mul(left, right))
}

// The variable to the power e, as it is written.
fn variable_power(alloc: Global, e: usize) -> Result<Expr, AllocError>
    ensures { IfOk result (λ t. tree_of t ≡ variable_power e) }
{
    if e == 0 {
        return Ok(Expr::Num(1));
    }
    if e == 1 {
        return Ok(Expr::Here);
    }
    let variable = Box::new(alloc, Expr::Here)?;
    Ok(Expr::Pow(variable, e as u128))
}

// The opposite of a tree.
fn negated(alloc: Global, t: Expr) -> Result<Expr, AllocError>
    ensures { IfOk result (λ s. tree_of s ≡ neg (tree_of t)) }
{
    let inner = Box::new(alloc, t)?;
    Ok(Expr::Neg(inner))
}

// Whether the highest coefficient that isn't 0 is below 0.
fn leads_below_zero(coefficients: &[i128]) -> bool
    ensures { result ≡ leads_below_zero coefficients.now }
{
    match coefficients.split_first() {
        None => false,
        Some((c, rest)) => {
            if *c == 0 {
                leads_below_zero(rest)
            } else {
                *c < 0
            }
        }
    }
}

// The quotient of a tree by a number.
fn divided(alloc: Global, t: Expr, denominator: i128) -> Result<Expr, AllocError>
    ensures { IfOk result (λ s. tree_of s ≡ div (tree_of t) (numeral denominator)) }
{
    let left = Box::new(alloc, t)?;
    let right = Box::new(alloc, Expr::Num(denominator))?;
    Ok(Expr::Div(left, right))
}
