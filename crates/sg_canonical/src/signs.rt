ghost use Rattle.std.specs.Prelude.{◌≡◌, ◌∷◌, [], map, IfOk, Bool};
ghost use Rattle.sg_expr.specs.Tree.{tree_of};
ghost use Rattle.sg_spec.specs.Canonical.{unsigned_tree, signed_tree, added, total_tree};
ghost use Rattle.sg_canonical.specs.Signs.{signed_of, turned_if};

use crate::factors::{above, over_all, plus, with_sign};
use sg_expr::Expr;
use sg_num::Row;
use std::alloc::{AllocError, Global};

/// A term with a sign: a numerator, the factors that stand above and those that stand below.
#[derive(Drop)]
pub struct Signed {
    pub minus: bool,
    pub numerator: Expr,
    pub uppers: Row<Expr>,
    pub lowers: Row<Expr>,
}

/// The terms one after the other, each with its sign, or the other where `turn` says so.
pub fn total_tree(alloc: Global, turn: bool, ss: &[Signed]) -> Result<Expr, AllocError>
    ensures { IfOk result (λ r. tree_of r ≡ total_tree (map (λ s. turned_if turn (signed_of s)) ss.now)) }
{
    match ss.split_first() {
        None => Ok(Expr::Num(0)),
        Some((s, rest)) => {
            let first = signed_tree(alloc, turn, s)?;
            let all = added(alloc, turn, first, rest)?;
            Ok(all)
        }
    }
}

// The term, with the other sign where `turn` says so.
fn signed_tree(alloc: Global, turn: bool, s: &Signed) -> Result<Expr, AllocError>
    ensures { IfOk result (λ t. tree_of t ≡ signed_tree (turned_if turn (signed_of s.now))) }
{
    let t = unsigned_tree(alloc, s)?;
    let minus = if turn { !s.minus } else { s.minus };
    let all = with_sign(alloc, minus, t)?;
    Ok(all)
}

// The term without its sign.
fn unsigned_tree(alloc: Global, s: &Signed) -> Result<Expr, AllocError>
    ensures { IfOk result (λ t. tree_of t ≡ unsigned_tree (signed_of s.now)) }
{
    let t = above(alloc, &s.numerator, s.uppers.as_slice())?;
    let all = over_all(alloc, t, s.lowers.as_slice())?;
    Ok(all)
}

// t and the terms after it.
fn added(alloc: Global, turn: bool, t: Expr, ss: &[Signed]) -> Result<Expr, AllocError>
    ensures { IfOk result (λ r. tree_of r ≡ added (tree_of t) (map (λ s. turned_if turn (signed_of s)) ss.now)) }
{
    match ss.split_first() {
        None => Ok(t),
        Some((s, rest)) => {
            let more = signed_tree(alloc, turn, s)?;
            let t = plus(alloc, t, more)?;
            let all = added(alloc, turn, t, rest)?;
            Ok(all)
        }
    }
}
