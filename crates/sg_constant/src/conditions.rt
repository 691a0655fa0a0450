ghost use Rattle.std.specs.Prelude.{◌≡◌, ◌<◌, map, OnOk, IfOk, IfErr};
ghost use Rattle.sg_algebra.specs.Coefficients.{Each};
ghost use Rattle.sg_algebra.proofs.Polynomial.{coefficient};
ghost use Rattle.sg_num.specs.Stopped.{KeepsWideStep};
ghost use Rattle.sg_first_order_theory.proofs.System.{row_of};
ghost use Rattle.sg_reduction_theory.proofs.Places.{Fits};
ghost use Rattle.sg_constant.specs.Conditions.{IsConditioned, AreConditions};
ghost use Rattle.sg_constant.specs.Shares.{share, shares};

use crate::shares::Share;
use sg_num::{Field, Row, Stop};
use sg_poly::Poly;
use std::alloc::Global;

// The conditions on the constants: all numerators vanish.
pub(crate) fn rows<F: Field>(alloc: Global, list: &[Share<F>]) -> Result<Row<Row<F>>, Stop>
    requires { Each Fits (shares F.val list.now) }
    ensures value { IfOk result (λ r. AreConditions F.val list.now r) }
    ensures wide { IfErr result KeepsWideStep }
{
    let mut rows = Row::new(alloc);
    for i in 0..list.len() {
        push_rows(alloc, &mut rows, &list[i])?;
    }
    Ok(rows)
}

// Adds the conditions that the numerators of a share vanish: one row for each coefficient below the degree of the denominator.
fn push_rows<F: Field>(alloc: Global, rows: &mut Row<Row<F>>, s: &Share<F>) -> Result<(), Stop>
    requires { Fits (share F.val s.now) }
    ensures value { OnOk result (IsConditioned F.val s.now rows.old rows.new) }
    ensures wide { IfErr result KeepsWideStep }
{
    let n = s.lower.coeffs().len();
    for t in 0..n {
        rows.push(row(alloc, s.uppers.as_slice(), t)?)?;
    }
    Ok(())
}

// The coefficients at t of the numerators.
fn row<F: Field>(alloc: Global, uppers: &[Poly<F>], t: usize) -> Result<Row<F>, Stop>
    ensures value { IfOk result (λ r. map F.val r ≡ row_of (map (map F.val) uppers.now) t) }
    ensures wide { IfErr result KeepsWideStep }
{
    let mut row = Row::new(alloc);
    for i in 0..uppers.len() {
        row.push(at(alloc, &uppers[i], t)?)?;
    }
    Ok(row)
}

// The coefficient at t.
fn at<F: Field>(alloc: Global, p: &Poly<F>, t: usize) -> Result<F, Stop>
    ensures value { IfOk result (λ c. F.val c ≡ coefficient (map F.val p.now) t) }
    ensures wide { IfErr result KeepsWideStep }
{
    match p.coeff(t) {
        Some(c) => {
            let r = c.copy(alloc)?;
            Ok(r)
        }
        None => {
            let r = F::zero(alloc)?;
            Ok(r)
        }
    }
}
