ghost use Rattle.std.specs.Prelude.{◌<◌, ◌≤◌, IsTrue, IsFalse, IfOk, IfErr};
ghost use Rattle.sg_spec.specs.Parts.{coefficients, numer, leading, cauchy};
ghost use Rattle.sg_expr.specs.Tree.{tree_of};
ghost use Rattle.sg_parts.specs.Planes.{IsLight};
ghost use Rattle.sg_parts.specs.Weights.{IsOwn, HasNaturals, StopsHeavy};
ghost use Rattle.sg_parts.specs.Zeros.{IsZero};

use crate::line::Line;
use crate::numerators::numerator_of;
use crate::roots::{first_zero, is_far, leading_place};
use sg_expr::Expr;
use sg_num::Stop;
use std::alloc::Global;

/// Where a part is 0, whatever the parameter is.
#[derive(Clone, Copy)]
pub enum Zero {
    /// Cauchy's bound is above 4,096.
    Far,
    /// The least such number from a limit on.
    At(i64),
    /// Nowhere from the limit on.
    Nowhere,
}

/// Where the numerator of the tree is 0 from the limit on, if its bound isn't too far. A sum is brought over a common
/// denominator without reducing. A step that doesn't fit is kept only where the numerator is heavier than 2^126.
pub fn zero_of(alloc: Global, e: &Expr, limit: i64) -> Result<Zero, Stop>
    requires own { IsOwn (tree_of e.now) }
    requires naturals { HasNaturals (tree_of e.now) }
    ensures zero { IfOk result (λ z. IsZero z (coefficients (numer (tree_of e.now))) limit) }
    ensures stop { IfErr result (λ s. StopsHeavy s (tree_of e.now)) }
{
    let plane = numerator_of(alloc, e)?;
    Ok(plane_zero(plane.as_slice(), limit))
}

// Where all rows are 0.
fn plane_zero(plane: &[Line], limit: i64) -> Zero
    requires { IsLight plane.now }
    ensures { IsZero result plane.now limit }
{
    if has_far(plane) {
        return Zero::Far;
    }
    match first_zero(plane, limit) {
        Some(m) => Zero::At(m),
        None => Zero::Nowhere,
    }
}

// Whether the bound of the coefficient of the highest power of the parameter is above 4,096.
fn has_far(plane: &[Line]) -> bool
    ensures far { IsTrue result → 4096 < cauchy (leading plane.now) }
    ensures near { IsFalse result → cauchy (leading plane.now) ≤ 4096 }
{
    match leading_place(plane) {
        None => false,
        Some(i) => is_far(plane[i].as_slice()),
    }
}
