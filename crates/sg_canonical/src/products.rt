ghost use Rattle.std.specs.Prelude.{◌≡◌, ◌++◌, map, OnOk};
ghost use Rattle.sg_expr.specs.Tree.{tree_of};
ghost use Rattle.sg_spec.specs.Canonical.{factors, upper_factor, lower_factor};

use crate::factors::power;
use sg_expr::Expr;
use sg_num::Row;
use std::alloc::{AllocError, Global};

/// Adds the products with an exponent above 0, each with it.
pub fn push_above(
    alloc: Global,
    products: &[Expr],
    exponents: &[i128],
    out: &mut Row<Expr>,
) -> Result<(), AllocError>
    ensures { OnOk result (map tree_of out.new ≡ map tree_of out.old ++ factors upper_factor (map tree_of products.now) exponents.now) }
{
    match products.split_first() {
        None => Ok(()),
        Some((p, others)) => {
            match exponents.split_first() {
                None => Ok(()),
                Some((e, rest)) => {
                    push_positive(alloc, p, *e, out)?;
                    push_above(alloc, others, rest, out)
                }
            }
        }
    }
}

// Adds the product with its exponent, where that is above 0.
fn push_positive(alloc: Global, p: &Expr, e: i128, out: &mut Row<Expr>) -> Result<(), AllocError>
    ensures { OnOk result (map tree_of out.new ≡ map tree_of out.old ++ upper_factor (tree_of p.now) e) }
{
    if e <= 0 {
        return Ok(());
    }
    out.push(power(alloc, p, e.unsigned_abs())?)?;
    Ok(())
}

/// Adds the products with an exponent below 0, each with its size.
pub fn push_below(
    alloc: Global,
    products: &[Expr],
    exponents: &[i128],
    out: &mut Row<Expr>,
) -> Result<(), AllocError>
    ensures { OnOk result (map tree_of out.new ≡ map tree_of out.old ++ factors lower_factor (map tree_of products.now) exponents.now) }
{
    match products.split_first() {
        None => Ok(()),
        Some((p, others)) => {
            match exponents.split_first() {
                None => Ok(()),
                Some((e, rest)) => {
                    push_negative(alloc, p, *e, out)?;
                    push_below(alloc, others, rest, out)
                }
            }
        }
    }
}

// Adds the product with the size of its exponent, where that is below 0.
fn push_negative(alloc: Global, p: &Expr, e: i128, out: &mut Row<Expr>) -> Result<(), AllocError>
    ensures { OnOk result (map tree_of out.new ≡ map tree_of out.old ++ lower_factor (tree_of p.now) e) }
{
    if e >= 0 {
        return Ok(());
    }
    out.push(power(alloc, p, e.unsigned_abs())?)?;
    Ok(())
}
