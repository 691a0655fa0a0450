ghost use Rattle.std.specs.Prelude.{◌≤◌, pos, ◌-ℤ◌, unsigned_abs, [], false, IfOk, IfSome, MatchOption};
ghost use Rattle.sg_expr.specs.Tree.{tree_of};
ghost use Rattle.sg_plain.specs.Plain.{IsPlain};
ghost use Rattle.sg_spec.specs.Canonical.{IsCanonicalOver};
ghost use Rattle.sg_spec.specs.Closed.{Closed};
ghost use Rattle.sg_spec.specs.Fraction.{whole};
ghost use Rattle.sg_spec.specs.Printing.{InForm};
ghost use Rattle.sg_spec.specs.Value.{val, SameValue};

use crate::domain::is_plain;
use crate::reading::quartic_of;
use crate::summing::summed;
use crate::terms::canonical_tree;
use sg_expr::Expr;
use std::alloc::{AllocError, Global};

/// The closed form of the sum of a plain polynomial from a on, for a from -64 to 64, in canonical form: a polynomial in the
/// variable, which is the upper limit, over a number; one place before a, where there is no term, it is 0. None where the
/// expression is no plain polynomial, or a isn't there. All of it is whole arithmetic, where no step is wide. The error is out
/// of memory.
pub fn closed_form(alloc: Global, f: &Expr, a: i64) -> Result<Option<Expr>, AllocError>
    ensures plain { IfOk result (λ o. MatchOption o ((IsPlain (tree_of f.now) × (unsigned_abs a ≤ 64)) → ⊥)
        (λ h. IsPlain (tree_of f.now) × (unsigned_abs a ≤ 64))) }
    ensures closed { IfOk result (λ o. IfSome o (λ h. Closed (tree_of f.now) [] a (tree_of h) a)) }
    ensures empty { IfOk result (λ o. IfSome o (λ h. SameValue (val (tree_of h) (pos 0) (a -ℤ pos 1)) (Some (whole (pos 0))))) }
    ensures canonical { IfOk result (λ o. IfSome o (λ h. IsCanonicalOver [] [] (tree_of h))) }
    ensures form { IfOk result (λ o. IfSome o (λ h. InForm false false (tree_of h))) }
{
    if a.unsigned_abs() > 64 {
        return Ok(None);
    }
    if !is_plain(f) {
        return Ok(None);
    }
    let h = plain_sum(alloc, f, a)?;
    Ok(Some(h))
}

// The same for what is known to be plain.
fn plain_sum(alloc: Global, f: &Expr, a: i64) -> Result<Expr, AllocError>
    requires plain { IsPlain (tree_of f.now) }
    requires near { unsigned_abs a ≤ 64 }
    ensures closed { IfOk result (λ h. Closed (tree_of f.now) [] a (tree_of h) a) }
    ensures empty { IfOk result (λ h. SameValue (val (tree_of h) (pos 0) (a -ℤ pos 1)) (Some (whole (pos 0)))) }
    ensures canonical { IfOk result (λ h. IsCanonicalOver [] [] (tree_of h)) }
    ensures form { IfOk result (λ h. InForm false false (tree_of h)) }
{
    let q = quartic_of(f);
    let w = summed(alloc, q, a)?;
    let h = canonical_tree(alloc, w.numbers.as_slice(), w.denominator)?;
    Ok(h)
}
