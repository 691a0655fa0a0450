ghost use Rattle.std.specs.Prelude.{◌≡◌, [], ◌∷◌, ◌≤◌, length, map, nat_le, IfOk};
ghost use Rattle.sg_spec.specs.Generators.{sums, prods};
ghost use Rattle.sg_spec.specs.Limits.{all_keep};
ghost use Rattle.sg_expr.specs.Tree.{tree_of};

use sg_expr::Expr;
use sg_num::Row;
use std::alloc::{AllocError, Global};

const MOST_PRODUCTS_OF_ONE: usize = 4;

/// The distinct sums of all expressions, in their order. The error is out of memory, as in all of this file.
pub fn all_sums(alloc: Global, items: &[Expr]) -> Result<Row<Expr>, AllocError>
    ensures { IfOk result (λ list. map tree_of list ≡ sums (map tree_of items.now)) }
{
    let mut list = Row::new(alloc);
    for e in items {
        list = e.join_sums(alloc, list)?;
    }
    Ok(list)
}

/// The distinct products of all expressions, in their order.
pub fn all_products(alloc: Global, items: &[Expr]) -> Result<Row<Expr>, AllocError>
    ensures { IfOk result (λ list. map tree_of list ≡ prods (map tree_of items.now)) }
{
    let mut list = Row::new(alloc);
    for e in items {
        list = e.join_prods(alloc, list)?;
    }
    Ok(list)
}

/// Whether each expression by itself has at most 4 distinct products.
pub fn each_keeps_products(alloc: Global, items: &[Expr]) -> Result<bool, AllocError>
    ensures { IfOk result (λ b. b ≡ all_keep (λ t. nat_le (length (prods (t ∷ []))) 4) (map tree_of items.now)) }
{
    for e in items {
        if !keeps_products(alloc, e)? {
            return Ok(false);
        }
    }
    Ok(true)
}

/// Whether it has at most 4 distinct products.
fn keeps_products(alloc: Global, e: &Expr) -> Result<bool, AllocError>
    ensures { IfOk result (λ b. b ≡ nat_le (length (prods (tree_of e.now ∷ []))) 4) }
{
    let list = e.join_prods(alloc, Row::new(alloc))?;
    Ok(list.len() <= MOST_PRODUCTS_OF_ONE)
}
