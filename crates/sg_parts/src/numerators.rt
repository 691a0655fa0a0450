ghost use Rattle.std.specs.Prelude.{IfOk, IfErr};
ghost use Rattle.sg_spec.specs.Tree.{add};
ghost use Rattle.sg_spec.specs.Parts.{coefficients, numer};
ghost use Rattle.sg_expr.specs.Tree.{tree_of};
ghost use Rattle.sg_parts.specs.Planes.{IsLight, SamePlane};
ghost use Rattle.sg_parts.specs.Weights.{IsOwn, HasNaturals, StopsHeavy};

use crate::line::Line;
use crate::ratios::{leaf, ratio_of, sum_over};
use crate::weights::weigh_sum;
use sg_expr::Expr;
use sg_num::{Row, Stop};
use std::alloc::Global;

/// The polynomial that a part stands for, the numerator of its tree: over the powers of the parameter rows over the powers of the
/// variable. A sum is brought over a common denominator without reducing. A step that doesn't fit is kept only where the numerator
/// is heavier than 2^126.
pub fn numerator_of(alloc: Global, e: &Expr) -> Result<Row<Line>, Stop>
    requires own { IsOwn (tree_of e.now) }
    requires naturals { HasNaturals (tree_of e.now) }
    ensures plane { IfOk result (λ r. SamePlane r (coefficients (numer (tree_of e.now)))) }
    ensures light { IfOk result (λ r. IsLight r) }
    ensures stop { IfErr result (λ s. StopsHeavy s (tree_of e.now)) }
{
    match e {
        Expr::Add(a, b) => sum_plane(alloc, a, b),
        _ => {
            let plane = leaf(alloc, e)?;
            Ok(plane)
        }
    }
}

// The numerator of the sum.
fn sum_plane(alloc: Global, a: &Expr, b: &Expr) -> Result<Row<Line>, Stop>
    requires left { HasNaturals (tree_of a.now) }
    requires right { HasNaturals (tree_of b.now) }
    ensures plane { IfOk result (λ r. SamePlane r (coefficients (numer (add (tree_of a.now) (tree_of b.now))))) }
    ensures light { IfOk result (λ r. IsLight r) }
    ensures stop { IfErr result (λ s. StopsHeavy s (add (tree_of a.now) (tree_of b.now))) }
{
    weigh_sum(a, b)?;
    let x = ratio_of(alloc, a)?;
    let y = ratio_of(alloc, b)?;
    let over = sum_over(alloc, &x, &y)?;
    Ok(over)
}
