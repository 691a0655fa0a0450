ghost use Rattle.std.specs.Prelude.{◌≡◌, IfOk};
ghost use Rattle.sg_expr.specs.Tree.{tree_of};
ghost use Rattle.sg_gen.specs.Drawing.{shape_of};
ghost use Rattle.sg_gen.specs.Sample.{harmonic, harmonic_squares, with_sum, over, term, sampled};

use crate::draws::{Draws, Shape};
use sg_expr::Expr;
use std::alloc::{AllocError, Global};

/// The sample of a seed with this number: a sum of one to three terms in k, with harmonic numbers and divisors. The error is
/// out of memory.
pub fn sample(alloc: Global, seed: u64, i: u32) -> Result<Expr, AllocError>
    ensures { IfOk result (λ e. tree_of e ≡ sampled seed i) }
{
    let mut draws = Draws::new(seed, i);
    let more = draws.below(3);
    let mut all = term(alloc, draws.shape())?;
    for _ in 0..more {
        let left = Box::new(alloc, all)?;
        let right = Box::new(alloc, term(alloc, draws.shape())?)?;
        all = Expr::Add(left, right);
    }
    Ok(all)
}

// The term of a shape.
fn term(alloc: Global, shape: Shape) -> Result<Expr, AllocError>
    ensures { IfOk result (λ e. tree_of e ≡ term (shape_of shape)) }
{
    let coefficient = Box::new(alloc, Expr::Num(i128::from(shape.coefficient)))?;
    let variable = Box::new(alloc, Expr::Here)?;
    let power = Box::new(alloc, Expr::Pow(variable, u128::from(shape.exponent)))?;
    let product = times(alloc, Expr::Mul(coefficient, power), shape.sum)?;
    over(alloc, product, shape.divisor)
}

// An expression times nothing, H(k), H(k)^2 or H(k,2).
fn times(alloc: Global, e: Expr, sum: u32) -> Result<Expr, AllocError>
    ensures { IfOk result (λ t. tree_of t ≡ with_sum sum (tree_of e)) }
{
    let factor = match sum {
        0 => return Ok(e),
        1 => harmonic(alloc)?,
        2 => Expr::Pow(Box::new(alloc, harmonic(alloc)?)?, 2),
        _ => harmonic_squares(alloc)?,
    };
    let left = Box::new(alloc, e)?;
    let right = Box::new(alloc, factor)?;
    Ok(Expr::Mul(left, right))
}

// H(k).
fn harmonic(alloc: Global) -> Result<Expr, AllocError>
    ensures { IfOk result (λ t. tree_of t ≡ harmonic) }
{
    let one = Box::new(alloc, Expr::Num(1))?;
    let variable = Box::new(alloc, Expr::Here)?;
    let body = Box::new(alloc, Expr::Div(one, variable))?;
    Ok(Expr::Sum { from: 1, body })
}

// H(k,2).
fn harmonic_squares(alloc: Global) -> Result<Expr, AllocError>
    ensures { IfOk result (λ t. tree_of t ≡ harmonic_squares) }
{
    let one = Box::new(alloc, Expr::Num(1))?;
    let variable = Box::new(alloc, Expr::Here)?;
    let square = Box::new(alloc, Expr::Pow(variable, 2))?;
    let body = Box::new(alloc, Expr::Div(one, square))?;
    Ok(Expr::Sum { from: 1, body })
}

// An expression over nothing, k or k+1.
fn over(alloc: Global, e: Expr, divisor: u32) -> Result<Expr, AllocError>
    ensures { IfOk result (λ t. tree_of t ≡ over divisor (tree_of e)) }
{
    let variable = Box::new(alloc, Expr::Here)?;
    let below = match divisor {
        0 => return Ok(e),
        1 => variable,
        _ => {
            let one = Box::new(alloc, Expr::Num(1))?;
            Box::new(alloc, Expr::Add(variable, one))?
        }
    };
    let above = Box::new(alloc, e)?;
    Ok(Expr::Div(above, below))
}
