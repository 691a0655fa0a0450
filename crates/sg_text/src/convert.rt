//! The expression of a node, with the shorthands written out. Each node is let go before what takes its place is made, so
//! that both need the room of one of them; and what makes a part stays a call, so that the frame of the function that goes
//! down a text is small.
ghost use Rattle.std.specs.Prelude.{◌≡◌, ◌<◌, ◌≤◌, ◌^◌, cond, pos, IfOk};
ghost use Rattle.sg_spec.specs.Tree.{add, neg, mul, div, power, sum_from, prod_from, numeral, here, param};
ghost use Rattle.sg_spec.specs.Reading.{signed, harmonic_sum, binomial_product, tree_in};
ghost use Rattle.sg_expr.specs.Tree.{tree_of};
ghost use Rattle.sg_syntax.specs.Drafts.{value_of, placed_of};
ghost use Rattle.sg_text.specs.Scopes.{names_of};
ghost use Rattle.sg_text.specs.Fits.{FitsTree};

use crate::scope::Scope;
use sg_expr::Expr;
use sg_syntax::{Head, Node, Numeral};
use std::alloc::{AllocError, Global};

/// The expression of a node in this scope, in the node's place. The error is out of memory.
pub fn expr_of(alloc: Global, node: Box<Node>, scope: &Scope) -> Result<Box<Expr>, AllocError>
    ensures { IfOk result (λ e. FitsTree (placed_of node.value) → tree_of e.value ≡ tree_in (names_of scope.now) (placed_of node.value)) }
{
    match Box::into_inner(node) {
        Node::Number(_, v) => small_number(alloc, v),
        Node::LargeNumber(n) => number(alloc, &n),
        Node::Named(m) => named(alloc, scope.is_variable(m.value)),
        Node::Negated(x) => negated(alloc, expr_of(alloc, x, scope)?),
        Node::Added(x, y) => {
            let left = expr_of(alloc, x, scope)?;
            added(alloc, left, expr_of(alloc, y, scope)?)
        }
        Node::Subtracted(x, y) => {
            let left = expr_of(alloc, x, scope)?;
            let right = negated(alloc, expr_of(alloc, y, scope)?)?;
            added(alloc, left, right)
        }
        Node::Multiplied(x, y) => {
            let left = expr_of(alloc, x, scope)?;
            multiplied(alloc, left, expr_of(alloc, y, scope)?)
        }
        Node::Divided(x, _, y) => {
            let left = expr_of(alloc, x, scope)?;
            divided(alloc, left, expr_of(alloc, y, scope)?)
        }
        Node::Raised(x, n) => raised(alloc, expr_of(alloc, x, scope)?, exponent_of(&n)),
        Node::SumCall(head, body) => {
            let body = expr_of(alloc, body, &scope.inside(head.bound.value))?;
            sum_over(alloc, lower_limit(&head), body)
        }
        Node::ProductCall(head, body) => {
            let body = expr_of(alloc, body, &scope.inside(head.bound.value))?;
            product_over(alloc, lower_limit(&head), body)
        }
        Node::Harmonic(_, _) => harmonic(alloc, 1),
        Node::HarmonicOfOrder(_, _, order) => harmonic(alloc, exponent_of(&order)),
        Node::Factorial(_, _) => product_over(alloc, 1, named(alloc, true)?),
        Node::Binomial(_, _, x, _) => binomial(alloc, expr_of(alloc, x, scope)?),
        Node::ConstantPower(_, x, _) => product_over(alloc, 1, expr_of(alloc, x, scope)?),
    }
}

#[inline(never)]
fn small_number(alloc: Global, v: u64) -> Result<Box<Expr>, AllocError>
    ensures { IfOk result (λ e. tree_of e.value ≡ numeral (pos v)) }
{
    boxed(alloc, Expr::Num(v as i128))
}

#[inline(never)]
fn boxed(alloc: Global, x: Expr) -> Result<Box<Expr>, AllocError>
    ensures { IfOk result (λ e. tree_of e.value ≡ tree_of x) }
{
    Ok(Box::new(alloc, x)?)
}

/// The number; any, where it doesn't fit.
#[inline(never)]
fn number(alloc: Global, n: &Numeral) -> Result<Box<Expr>, AllocError>
    ensures { IfOk result (λ e. value_of n.now.value < 2 ^ 127 → tree_of e.value ≡ numeral (pos (value_of n.now.value))) }
{
    boxed(alloc, Expr::Num(numeral_of(*n)))
}

// The number; any, where it doesn't fit.
fn numeral_of(n: Numeral) -> i128
    ensures { value_of n.value < 2 ^ 127 → result ≡ pos (value_of n.value) }
{
    match n.value {
        Some(v) => match i128::try_from(v) {
            Ok(v) => v,
            Err(_) => 0,
        },
        None => 0,
    }
}

/// The variable or the parameter.
#[inline(never)]
fn named(alloc: Global, is_variable: bool) -> Result<Box<Expr>, AllocError>
    ensures { IfOk result (λ e. tree_of e.value ≡ cond is_variable here param) }
{
    boxed(alloc, if is_variable { Expr::Here } else { Expr::Param })
}

#[inline(never)]
fn negated(alloc: Global, x: Box<Expr>) -> Result<Box<Expr>, AllocError>
    ensures { IfOk result (λ e. tree_of e.value ≡ neg (tree_of x.value)) }
{
    Ok(Box::new(alloc, Expr::Neg(x))?)
}

#[inline(never)]
fn added(alloc: Global, x: Box<Expr>, y: Box<Expr>) -> Result<Box<Expr>, AllocError>
    ensures { IfOk result (λ e. tree_of e.value ≡ add (tree_of x.value) (tree_of y.value)) }
{
    Ok(Box::new(alloc, Expr::Add(x, y))?)
}

#[inline(never)]
fn multiplied(alloc: Global, x: Box<Expr>, y: Box<Expr>) -> Result<Box<Expr>, AllocError>
    ensures { IfOk result (λ e. tree_of e.value ≡ mul (tree_of x.value) (tree_of y.value)) }
{
    Ok(Box::new(alloc, Expr::Mul(x, y))?)
}

#[inline(never)]
fn divided(alloc: Global, x: Box<Expr>, y: Box<Expr>) -> Result<Box<Expr>, AllocError>
    ensures { IfOk result (λ e. tree_of e.value ≡ div (tree_of x.value) (tree_of y.value)) }
{
    Ok(Box::new(alloc, Expr::Div(x, y))?)
}

#[inline(never)]
fn raised(alloc: Global, x: Box<Expr>, e: u128) -> Result<Box<Expr>, AllocError>
    ensures { IfOk result (λ t. tree_of t.value ≡ power (tree_of x.value) e) }
{
    Ok(Box::new(alloc, Expr::Pow(x, e))?)
}

#[inline(never)]
fn exponent_of(n: &Numeral) -> u128
    ensures { value_of n.now.value < 2 ^ 128 → result ≡ value_of n.now.value }
{
    match n.value {
        Some(v) => v,
        None => 0,
    }
}

#[inline(never)]
fn sum_over(alloc: Global, from: i64, body: Box<Expr>) -> Result<Box<Expr>, AllocError>
    ensures { IfOk result (λ e. tree_of e.value ≡ sum_from from (tree_of body.value)) }
{
    Ok(Box::new(alloc, Expr::Sum { from, body })?)
}

#[inline(never)]
fn lower_limit(head: &Head) -> i64
    ensures { value_of head.now.lower.value ≤ 1000 → result ≡ signed head.now.sign.value (value_of head.now.lower.value) }
{
    let size = match head.lower.value {
        Some(v) => if v <= 1000 { v as i64 } else { 0 },
        None => 0,
    };
    if head.sign.value == 0 { size } else { -size }
}

#[inline(never)]
fn product_over(alloc: Global, from: i64, body: Box<Expr>) -> Result<Box<Expr>, AllocError>
    ensures { IfOk result (λ e. tree_of e.value ≡ prod_from from (tree_of body.value)) }
{
    Ok(Box::new(alloc, Expr::Prod { from, body })?)
}

/// The sum of the reciprocals of the powers of this order.
#[inline(never)]
fn harmonic(alloc: Global, order: u128) -> Result<Box<Expr>, AllocError>
    ensures { IfOk result (λ e. tree_of e.value ≡ harmonic_sum order) }
{
    let one = boxed(alloc, Expr::Num(1))?;
    let here = boxed(alloc, Expr::Here)?;
    let divisor = if order == 1 {
        here
    } else {
        raised(alloc, here, order)?
    };
    sum_over(alloc, 1, divided(alloc, one, divisor)?)
}

/// The product of (x+1-j)/j.
#[inline(never)]
fn binomial(alloc: Global, x: Box<Expr>) -> Result<Box<Expr>, AllocError>
    ensures { IfOk result (λ e. tree_of e.value ≡ binomial_product (tree_of x.value)) }
{
    let next = added(alloc, x, boxed(alloc, Expr::Num(1))?)?;
    let factor = added(alloc, next, negated(alloc, boxed(alloc, Expr::Here)?)?)?;
    product_over(alloc, 1, divided(alloc, factor, boxed(alloc, Expr::Here)?)?)
}
