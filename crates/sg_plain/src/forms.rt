ghost use Rattle.std.specs.Prelude.{ℤ, pos, [], false, IfOk, IfSome, MatchOption};
ghost use Rattle.sg_expr.specs.Tree.{tree_of};
ghost use Rattle.sg_plain.specs.Plain.{IsPlain};
ghost use Rattle.sg_spec.specs.Canonical.{IsCanonicalOver};
ghost use Rattle.sg_spec.specs.Generators.{Over};
ghost use Rattle.sg_spec.specs.Printing.{InForm};
ghost use Rattle.sg_spec.specs.Value.{val, SameValue};

use crate::domain::is_plain;
use crate::reading::quartic_of;
use crate::terms::canonical_tree;
use sg_expr::Expr;
use std::alloc::{AllocError, Global};

/// A plain polynomial in canonical form, which has the same values; None exactly where the expression isn't plain. The error is
/// out of memory.
pub fn plain_form(alloc: Global, e: &Expr) -> Result<Option<Expr>, AllocError>
    ensures plain { IfOk result (λ o. MatchOption o (IsPlain (tree_of e.now) → ⊥) (λ h. IsPlain (tree_of e.now))) }
    ensures same { IfOk result (λ o. IfSome o (λ h. (k : ℤ) → SameValue (val (tree_of h) (pos 0) k) (val (tree_of e.now) (pos 0) k))) }
    ensures over { IfOk result (λ o. IfSome o (λ h. Over [] (tree_of h))) }
    ensures canonical { IfOk result (λ o. IfSome o (λ h. IsCanonicalOver [] [] (tree_of h))) }
    ensures form { IfOk result (λ o. IfSome o (λ h. InForm false false (tree_of h))) }
{
    if !is_plain(e) {
        return Ok(None);
    }
    let h = written(alloc, e)?;
    Ok(Some(h))
}

// The same for what is known to be plain.
fn written(alloc: Global, e: &Expr) -> Result<Expr, AllocError>
    requires { IsPlain (tree_of e.now) }
    ensures same { IfOk result (λ h. (k : ℤ) → SameValue (val (tree_of h) (pos 0) k) (val (tree_of e.now) (pos 0) k)) }
    ensures over { IfOk result (λ h. Over [] (tree_of h)) }
    ensures canonical { IfOk result (λ h. IsCanonicalOver [] [] (tree_of h)) }
    ensures form { IfOk result (λ h. InForm false false (tree_of h)) }
{
    let q = quartic_of(e);
    let h = canonical_tree(
        alloc,
        &[q.fourth, q.cube, q.square, q.linear, q.constant],
        1,
    )?;
    Ok(h)
}
