ghost use Rattle.std.specs.Prelude.{◌≡◌, ◌≤◌, List, None, length, map, IfOk, IfErr};
ghost use Rattle.sg_spec.specs.Faults.{Numbered, NoneFar, AreSpared, parts_from};
ghost use Rattle.sg_spec.specs.Limits.{first_not, keeps_nodes};
ghost use Rattle.sg_expr.specs.Tree.{tree_of};
ghost use Rattle.sg_limits.specs.Counts.{AreInForm};
ghost use Rattle.sg_limits.specs.Walks.{AreFound, IsWalkFault, IsRefusal};

use crate::LimitFault;
use crate::walk::{Findings, Place, Role, walk};
use sg_expr::Expr;
use std::alloc::Global;

/// Looks for parts that are 0, in all expressions: far ones, then those of divisors, then those of bodies of products.
pub fn seek(alloc: Global, items: &[Expr], lower: i64) -> Result<(), LimitFault>
    requires few { length items.now ≤ 16 }
    requires form { AreInForm (map tree_of items.now) }
    requires small { first_not keeps_nodes (map tree_of items.now) ≡ None }
    ensures spared { IfOk result (λ _. AreSpared (parts_from 1 lower (map tree_of items.now))) }
    ensures fault { IfErr result (λ f. IsRefusal f (parts_from 1 lower (map tree_of items.now))) }
{
    let found = walk_all(alloc, items, lower)?;
    refuse(found)
}

// Goes over the parts of all expressions.
fn walk_all(alloc: Global, items: &[Expr], lower: i64) -> Result<Findings, LimitFault>
    requires few { length items.now ≤ 16 }
    requires form { AreInForm (map tree_of items.now) }
    requires small { first_not keeps_nodes (map tree_of items.now) ≡ None }
    ensures near { IfOk result (λ _. NoneFar (parts_from 1 lower (map tree_of items.now))) }
    ensures found { IfOk result (λ f. AreFound (parts_from 1 lower (map tree_of items.now)) f) }
    ensures fault { IfErr result (λ f. IsWalkFault f (parts_from 1 lower (map tree_of items.now))) }
{
    let mut found = Findings {
        pole: None,
        factor: None,
    };
    let mut item = 1;
    for e in items {
        let place = Place {
            item,
            limit: lower,
            depth: 0,
        };
        found = walk(alloc, Role::Anywhere, place, e, found)?;
        item += 1;
    }
    Ok(found)
}

// The first pole, or else the first zero factor.
fn refuse(found: Findings) -> Result<(), LimitFault>
    ensures spared { (xs : List Numbered) → NoneFar xs → AreFound xs found → IfOk result (λ _. AreSpared xs) }
    ensures fault { (xs : List Numbered) → NoneFar xs → AreFound xs found → IfErr result (λ f. IsRefusal f xs) }
{
    let Findings { pole, factor } = found;
    if let Some(f) = pole {
        return Err(LimitFault::Pole {
            item: f.place.item,
            at: f.at,
            part: f.part,
            depth: f.place.depth,
        });
    }
    if let Some(f) = factor {
        return Err(LimitFault::ZeroFactor {
            item: f.place.item,
            at: f.at,
            part: f.part,
            depth: f.place.depth,
        });
    }
    Ok(())
}
