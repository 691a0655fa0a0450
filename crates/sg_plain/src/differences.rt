ghost use Rattle.std.specs.Prelude.{ℤ, IfSome, IsTrue, MatchOption};
ghost use Rattle.sg_expr.specs.Tree.{tree_of};
ghost use Rattle.sg_plain.specs.Plain.{IsPlain};
ghost use Rattle.sg_spec.specs.Telescoping.{Steps, Failing};

use crate::domain::is_plain;
use crate::reading::quartic_of;
use sg_expr::Expr;

/// Whether g(k + 1) - g(k) is f(k), for plain polynomials; None where one isn't plain. Where it isn't f(k) everywhere, it
/// isn't beyond any point. It takes no memory.
pub fn telescopes(f: &Expr, g: &Expr) -> Option<bool>
    ensures plain { MatchOption result ((IsPlain (tree_of f.now) × IsPlain (tree_of g.now)) → ⊥)
        (λ t. IsPlain (tree_of f.now) × IsPlain (tree_of g.now)) }
    ensures yes { IfSome result (λ t. IsTrue t → (k : ℤ) → Steps (tree_of g.now) (tree_of f.now) k) }
    ensures no { IfSome result (λ t. (IsTrue t → ⊥) → (K : ℤ) → Failing (tree_of g.now) (tree_of f.now) K) }
{
    if !is_plain(f) {
        return None;
    }
    if !is_plain(g) {
        return None;
    }
    Some(is_telescoped(f, g))
}

// The same for what is known to be plain.
fn is_telescoped(f: &Expr, g: &Expr) -> bool
    requires summand { IsPlain (tree_of f.now) }
    requires sum { IsPlain (tree_of g.now) }
    ensures yes { IsTrue result → (k : ℤ) → Steps (tree_of g.now) (tree_of f.now) k }
    ensures no { (IsTrue result → ⊥) → (K : ℤ) → Failing (tree_of g.now) (tree_of f.now) K }
{
    let q = quartic_of(f);
    let p = quartic_of(g);
    q.is_difference_of(p)
}
