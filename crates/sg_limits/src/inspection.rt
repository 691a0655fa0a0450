ghost use Rattle.std.specs.Prelude.{◌≡◌, ◌≤◌, ℤ, Option, None, length, map, IfSome, IfOk, IfErr};
ghost use Rattle.sg_spec.specs.Faults.{parts_of, AreSpared};
ghost use Rattle.sg_spec.specs.Generators.{sums, prods};
ghost use Rattle.sg_spec.specs.Limits.{counted, first_not, keeps_nodes, keeps_degrees};
ghost use Rattle.sg_expr.specs.Tree.{tree_of};
ghost use Rattle.sg_limits.specs.Counts.{AreInForm, IsFault, AreFacts};

use crate::LimitFault;
use crate::degrees::keeps_degrees;
use crate::lists::{all_products, all_sums, each_keeps_products};
use crate::seek::seek;
use crate::sizes::keeps_nodes;
use crate::start::start_of_all;
use sg_expr::Expr;
use sg_num::Row;
use std::alloc::Global;

const MOST_SUMS: usize = 8;

const MOST_PRODUCTS: usize = 20;

/// What all expressions of a command together are built from.
#[derive(Drop)]
pub struct Facts {
    /// The first place from which on no sum or product runs over a range that goes down; 0 without a lower limit.
    pub start: i64,
    /// The distinct products.
    pub prods: Row<Expr>,
    /// The distinct sums.
    pub sums: Row<Expr>,
}

/// Tests the limits on the expressions of a command: nodes, degrees, distinct sums and distinct products, in this order. With a
/// lower limit of the outer variable it then looks for parts of divisors and of bodies of products that are 0 for every
/// parameter, at or above the lower limit of their variable: first for such whose Cauchy bound is above 4,096, which are not
/// looked through, then for parts of divisors, then for those of bodies. It answers the first that is found, of the first
/// expression, in the order of the text, with the least point; or what the expressions are built from. A step that doesn't fit
/// stops it only where a part is heavier than 2^126.
pub fn inspect(alloc: Global, items: &Row<Expr>, lower: Option<i64>) -> Result<Facts, LimitFault>
    requires few { length items.now ≤ 16 }
    requires form { IfSome lower (λ _. AreInForm (map tree_of items.now)) }
    ensures fault { IfErr result (λ f. IsFault f lower (map tree_of items.now)) }
    ensures kept { IfOk result (λ _. counted (map tree_of items.now) ≡ None) }
    ensures spared { IfOk result (λ _. AreSpared (parts_of lower (map tree_of items.now))) }
    ensures facts { IfOk result (λ f. AreFacts f lower (map tree_of items.now)) }
{
    let items = items.as_slice();
    let (prods, sums) = count(alloc, items)?;
    match lower {
        None => Ok(Facts {
            start: 0,
            prods,
            sums,
        }),
        Some(a) => {
            seek(alloc, items, a)?;
            Ok(Facts {
                start: start_of_all(items, a),
                prods,
                sums,
            })
        }
    }
}

/// Tests the counted limits, and answers the distinct products and sums.
fn count(alloc: Global, items: &[Expr]) -> Result<(Row<Expr>, Row<Expr>), LimitFault>
    requires { length items.now ≤ 16 }
    ensures fault { IfErr result (λ f. (lower : Option ℤ) → IsFault f lower (map tree_of items.now)) }
    ensures kept { IfOk result (λ _. counted (map tree_of items.now) ≡ None) }
    ensures prods { IfOk result (λ p. map tree_of p.0 ≡ prods (map tree_of items.now)) }
    ensures sums { IfOk result (λ p. map tree_of p.1 ≡ sums (map tree_of items.now)) }
{
    if let Some(item) = first_large(items) {
        return Err(LimitFault::Nodes { item });
    }
    if let Some(item) = first_steep(items) {
        return Err(LimitFault::Degree { item });
    }
    let sums = all_sums(alloc, items)?;
    if sums.len() > MOST_SUMS {
        return Err(LimitFault::Sums);
    }
    let prods = all_products(alloc, items)?;
    if !each_keeps_products(alloc, items)? || prods.len() > MOST_PRODUCTS {
        return Err(LimitFault::Products);
    }
    Ok((prods, sums))
}

/// The first expression with too many nodes, counted from 1.
fn first_large(items: &[Expr]) -> Option<u32>
    requires { length items.now ≤ 16 }
    ensures { result ≡ first_not keeps_nodes (map tree_of items.now) }
{
    let mut item = 1;
    for e in items {
        if !keeps_nodes(e) {
            return Some(item);
        }
        item += 1;
    }
    None
}

/// The first expression with a scope whose degrees are too high, counted from 1.
fn first_steep(items: &[Expr]) -> Option<u32>
    requires { length items.now ≤ 16 }
    ensures { result ≡ first_not keeps_degrees (map tree_of items.now) }
{
    let mut item = 1;
    for e in items {
        if !keeps_degrees(e) {
            return Some(item);
        }
        item += 1;
    }
    None
}
