ghost use Rattle.std.specs.Prelude.{◌≡◌, ℕ, ◌<◌, IfOk, IfErr, map};
ghost use Rattle.sg_algebra.proofs.Polynomial.{coefficient};
ghost use Rattle.sg_algebra.proofs.Linear.{unit};
ghost use Rattle.sg_num.specs.Stopped.{KeepsWideStep};
ghost use Rattle.sg_matrix.specs.Systems.{ConstantsPlus};

use sg_num::{Field, Row, Stop};
use std::alloc::Global;

/// The constants 1 at `i`, 0 at the other places below `n`.
pub fn unit_row<F: Field>(alloc: Global, n: usize, i: usize) -> Result<Row<F>, Stop>
    requires { i < n }
    ensures value { IfOk result (λ r. (j : ℕ) → coefficient (map F.val r) j ≡ unit i j) }
    ensures wide { IfErr result KeepsWideStep }
{
    let mut r = Row::new(alloc);
    for j in 0..n {
        r.push(unit_entry(alloc, i, j)?)?;
    }
    Ok(r)
}

/// The constants x + c y, place by place; past its end a list has 0.
pub fn plus_constants<F: Field>(
    alloc: Global,
    x: &Row<F>,
    c: &F,
    y: &Row<F>,
) -> Result<Row<F>, Stop>
    ensures value { IfOk result (ConstantsPlus F.val x.now (F.val c.now) y.now) }
    ensures wide { IfErr result KeepsWideStep }
{
    let mut r = Row::new(alloc);
    for i in 0..x.len().max(y.len()) {
        let a = constant(alloc, x, i)?;
        let b = constant(alloc, y, i)?.mul(alloc, c)?;
        r.push(a.add(alloc, &b)?)?;
    }
    Ok(r)
}

/// The constant at `i`: 0 past the end.
pub fn constant<F: Field>(alloc: Global, cs: &Row<F>, i: usize) -> Result<F, Stop>
    ensures value { IfOk result (λ r. F.val r ≡ coefficient (map F.val cs.now) i) }
    ensures wide { IfErr result KeepsWideStep }
{
    if i < cs.len() {
        let c = cs.get(i).copy(alloc)?;
        Ok(c)
    } else {
        let c = F::zero(alloc)?;
        Ok(c)
    }
}

// The entry at `j`: 1 where it is `i`, else 0.
fn unit_entry<F: Field>(alloc: Global, i: usize, j: usize) -> Result<F, Stop>
    ensures value { IfOk result (λ r. F.val r ≡ unit i j) }
    ensures wide { IfErr result KeepsWideStep }
{
    if i == j {
        let one = F::one(alloc)?;
        Ok(one)
    } else {
        let zero = F::zero(alloc)?;
        Ok(zero)
    }
}
