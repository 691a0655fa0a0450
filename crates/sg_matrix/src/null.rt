ghost use Rattle.std.specs.Prelude.{◌≡◌, ℕ, ◌<◌, ◌≤◌, [], length, map, get_or, IfOk, IfErr};
ghost use Rattle.sg_algebra.proofs.Value.{Value, zero_value};
ghost use Rattle.sg_algebra.proofs.Polynomial.{coefficient};
ghost use Rattle.sg_algebra.proofs.Linear.{row_times, Span, table, Form};
ghost use Rattle.sg_num.specs.Stopped.{KeepsWideStep};
ghost use Rattle.sg_matrix.specs.NullBasis.{AreNull, SpanNull};

use crate::echelon::Echelon;
use crate::rows::copied;
use sg_num::{Field, Row, Stop};
use std::alloc::Global;

/// The basis of all vectors of the width that each row sends to 0: the one of the reduced echelon form, one vector for each
/// free column, in ascending order of these columns, with 1 in its own free column and 0 in the others. Each row has the
/// width. The rows go one after the other into a reduced echelon form (Gauss and Jordan), from which the basis is read.
pub fn null_basis<F: Field>(
    alloc: Global,
    rows: &Row<Row<F>>,
    width: usize,
) -> Result<Row<Row<F>>, Stop>
    requires { (i : ℕ) → i < length rows.now → length (get_or rows.now i []) ≡ width }
    ensures sized { IfOk result (λ basis. (i : ℕ) → i < length basis → length (get_or basis i []) ≡ width) }
    ensures sound { IfOk result (AreNull F.val rows.now) }
    ensures form { IfOk result (λ basis. Form F.val basis) }
    ensures complete { IfOk result (SpanNull F.val width rows.now) }
    ensures wide { IfErr result KeepsWideStep }
{
    let mut system = Echelon::new(alloc, width);
    for i in 0..rows.len() {
        let row = copied(alloc, rows.get(i).as_slice())?;
        let _fresh = system.add_row(row)?;
    }
    let basis = system.basis(alloc)?;
    Ok(basis)
}
