ghost use Rattle.std.specs.Prelude.{◌≡◌, [], ◌∷◌, ◌+◌, ◌*◌, ◌^◌, ◌<◌, max, IfOk, pos};
ghost use Rattle.sg_spec.specs.Polynomials.{weight};
ghost use Rattle.sg_spec.specs.Parts.{coefficients, ratio_of, plane_one, plane_add, plane_mul};
ghost use Rattle.sg_expr.specs.Tree.{tree_of};
ghost use Rattle.sg_parts.specs.Planes.{plane_size, SamePlane};
ghost use Rattle.sg_parts.specs.Weights.{AreRatio, IsOppositeRatio, IsSumRatio, IsProductRatio, IsPowerRatio, IsLeaf, HasNaturals};

use crate::line::Line;
use crate::planes::{one, plane_power, plane_product, plane_sum, single};
use sg_expr::Expr;
use sg_num::Row;
use std::alloc::{AllocError, Global};

/// The polynomials of a numerator and of a denominator.
#[derive(Drop)]
pub struct Ratio {
    pub over: Row<Line>,
    pub under: Row<Line>,
}

/// The polynomials of the numerator and the denominator of a tree, without reducing. The error is out of memory, as in all of
/// this file.
pub fn ratio_of(alloc: Global, e: &Expr) -> Result<Ratio, AllocError>
    requires over { weight (ratio_of (tree_of e.now)).over < 2 ^ 127 }
    requires under { weight (ratio_of (tree_of e.now)).under < 2 ^ 127 }
    ensures { IfOk result (λ r. AreRatio r.over r.under (ratio_of (tree_of e.now))) }
{
    match e {
        Expr::Num(_)
        | Expr::Here
        | Expr::Param
        | Expr::Sum { from: _, body: _ }
        | Expr::Prod { from: _, body: _ } => {
            let over = leaf(alloc, e)?;
            let under = one(alloc)?;
            Ok(Ratio { over, under })
        }
        Expr::Neg(a) => {
            let x = ratio_of(alloc, a)?;
            let w = opposite(alloc, x)?;
            Ok(w)
        }
        Expr::Add(a, b) => {
            let x = ratio_of(alloc, a)?;
            let y = ratio_of(alloc, b)?;
            let w = sum(alloc, &x, &y)?;
            Ok(w)
        }
        Expr::Mul(a, b) => {
            let x = ratio_of(alloc, a)?;
            let y = ratio_of(alloc, b)?;
            let w = product(alloc, &x, &y)?;
            Ok(w)
        }
        Expr::Div(a, b) => {
            let x = ratio_of(alloc, a)?;
            let y = ratio_of(alloc, b)?;
            let w = quotient(alloc, &x, &y)?;
            Ok(w)
        }
        Expr::Pow(a, e) => {
            if *e == 0 {
                let w = unit(alloc)?;
                return Ok(w);
            }
            let x = ratio_of(alloc, a)?;
            let w = power(alloc, &x, *e)?;
            Ok(w)
        }
    }
}

// The opposite.
fn opposite(alloc: Global, x: Ratio) -> Result<Ratio, AllocError>
    requires { plane_size x.over < 2 ^ 127 }
    ensures { IfOk result (λ r. IsOppositeRatio r.over r.under x.over x.under) }
{
    let Ratio { over, under } = x;
    let over = plane_sum(alloc, &[], -1, over.as_slice())?;
    Ok(Ratio { over, under })
}

// The sum.
fn sum(alloc: Global, x: &Ratio, y: &Ratio) -> Result<Ratio, AllocError>
    requires over { plane_size x.now.over * plane_size y.now.under + plane_size y.now.over * plane_size x.now.under < 2 ^ 127 }
    requires under { plane_size x.now.under * plane_size y.now.under < 2 ^ 127 }
    ensures { IfOk result (λ r. IsSumRatio r.over r.under x.now.over x.now.under y.now.over y.now.under) }
{
    let over = sum_over(alloc, x, y)?;
    let under = plane_product(alloc, x.under.as_slice(), y.under.as_slice())?;
    Ok(Ratio { over, under })
}

/// The numerator of the sum.
pub fn sum_over(alloc: Global, x: &Ratio, y: &Ratio) -> Result<Row<Line>, AllocError>
    requires { plane_size x.now.over * plane_size y.now.under + plane_size y.now.over * plane_size x.now.under < 2 ^ 127 }
    ensures { IfOk result (λ r. SamePlane r (plane_add (plane_mul x.now.over y.now.under) (plane_mul y.now.over x.now.under))) }
{
    let left = plane_product(alloc, x.over.as_slice(), y.under.as_slice())?;
    let right = plane_product(alloc, y.over.as_slice(), x.under.as_slice())?;
    let over = plane_sum(alloc, left.as_slice(), 1, right.as_slice())?;
    Ok(over)
}

// The product.
fn product(alloc: Global, x: &Ratio, y: &Ratio) -> Result<Ratio, AllocError>
    requires over { plane_size x.now.over * plane_size y.now.over < 2 ^ 127 }
    requires under { plane_size x.now.under * plane_size y.now.under < 2 ^ 127 }
    ensures { IfOk result (λ r. IsProductRatio r.over r.under x.now.over x.now.under y.now.over y.now.under) }
{
    let over = plane_product(alloc, x.over.as_slice(), y.over.as_slice())?;
    let under = plane_product(alloc, x.under.as_slice(), y.under.as_slice())?;
    Ok(Ratio { over, under })
}

// The quotient.
fn quotient(alloc: Global, x: &Ratio, y: &Ratio) -> Result<Ratio, AllocError>
    requires over { plane_size x.now.over * plane_size y.now.under < 2 ^ 127 }
    requires under { plane_size x.now.under * plane_size y.now.over < 2 ^ 127 }
    ensures { IfOk result (λ r. IsProductRatio r.over r.under x.now.over x.now.under y.now.under y.now.over) }
{
    let over = plane_product(alloc, x.over.as_slice(), y.under.as_slice())?;
    let under = plane_product(alloc, x.under.as_slice(), y.over.as_slice())?;
    Ok(Ratio { over, under })
}

// The power.
fn power(alloc: Global, x: &Ratio, exponent: u128) -> Result<Ratio, AllocError>
    requires over { max 1 (plane_size x.now.over) ^ exponent < 2 ^ 127 }
    requires under { max 1 (plane_size x.now.under) ^ exponent < 2 ^ 127 }
    ensures { IfOk result (λ r. IsPowerRatio r.over r.under x.now.over x.now.under exponent) }
{
    let over = plane_power(alloc, x.over.as_slice(), exponent)?;
    let under = plane_power(alloc, x.under.as_slice(), exponent)?;
    Ok(Ratio { over, under })
}

// 1 over 1.
fn unit(alloc: Global) -> Result<Ratio, AllocError>
    ensures over { IfOk result (λ r. r.over ≡ plane_one) }
    ensures under { IfOk result (λ r. r.under ≡ plane_one) }
{
    let over = one(alloc)?;
    let under = one(alloc)?;
    Ok(Ratio { over, under })
}

/// A number, the variable or the parameter. A sum or product has no coefficients.
pub fn leaf(alloc: Global, e: &Expr) -> Result<Row<Line>, AllocError>
    requires { IsLeaf (tree_of e.now) }
    ensures value { IfOk result (λ r. r ≡ coefficients (tree_of e.now)) }
    ensures light { HasNaturals (tree_of e.now) → IfOk result (λ r. plane_size r < 2 ^ 127) }
{
    match e {
        Expr::Num(n) => {
            let rows = one_row(alloc, single(alloc, *n)?)?;
            Ok(rows)
        }
        Expr::Here => {
            let rows = one_row(alloc, variable(alloc)?)?;
            Ok(rows)
        }
        Expr::Param => {
            let rows = parameter(alloc)?;
            Ok(rows)
        }
        Expr::Sum { from: _, body: _ } | Expr::Prod { from: _, body: _ } => Ok(Row::new(alloc)),
        Expr::Neg(_) | Expr::Add(_, _) | Expr::Mul(_, _) | Expr::Div(_, _) | Expr::Pow(_, _) => Ok(
            Row::new(alloc),
        ),
    }
}

// One row.
fn one_row(alloc: Global, row: Line) -> Result<Row<Line>, AllocError>
    ensures { IfOk result (λ r. r ≡ row ∷ []) }
{
    let mut rows = Row::new(alloc);
    rows.push(row)?;
    Ok(rows)
}

// The coefficients of the parameter.
fn parameter(alloc: Global) -> Result<Row<Line>, AllocError>
    ensures { IfOk result (λ r. r ≡ [] ∷ ((pos 1 ∷ []) ∷ [])) }
{
    let row = single(alloc, 1)?;
    let mut rows = Row::new(alloc);
    rows.push(Line::of(Vec::new(alloc)))?;
    rows.push(row)?;
    Ok(rows)
}

// The coefficients of the variable.
fn variable(alloc: Global) -> Result<Line, AllocError>
    ensures { IfOk result (λ r. r ≡ pos 0 ∷ (pos 1 ∷ [])) }
{
    let mut row = Vec::new(alloc);
    row.push(0)?;
    row.push(1)?;
    Ok(Line::of(row))
}
