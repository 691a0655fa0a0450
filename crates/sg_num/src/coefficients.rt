//! Lists of a field's elements: copies of them, and the values of the polynomials with these coefficients.
ghost use Rattle.std.specs.Prelude.{◌≡◌, ◌++◌, map, OnOk, IfOk, IfErr};
ghost use Rattle.sg_algebra.specs.Coefficients.{eval};
ghost use Rattle.sg_algebra.proofs.ValueField.{ValueR};
ghost use Rattle.sg_num.specs.Stopped.{KeepsWideStep};

use crate::field::Field;
use crate::row::Row;
use crate::step::Stop;
use std::alloc::Global;

/// A list of equal elements.
pub fn copies_of<F: Field>(alloc: Global, list: &[F]) -> Result<Row<F>, Stop>
    ensures values { IfOk result (λ r. map F.val r ≡ map F.val list.now) }
    ensures wide { IfErr result KeepsWideStep }
{
    let mut row = Row::new(alloc);
    push_copies(alloc, &mut row, list)?;
    Ok(row)
}

/// Adds equal elements at the end of a list.
pub fn push_copies<F: Field>(alloc: Global, row: &mut Row<F>, list: &[F]) -> Result<(), Stop>
    ensures values { OnOk result (map F.val row.new ≡ map F.val row.old ++ map F.val list.now) }
    ensures wide { IfErr result KeepsWideStep }
{
    for i in 0..list.len() {
        let item = list[i].copy(alloc)?;
        row.push(item)?;
    }
    Ok(())
}

/// The value at `x` of the polynomial with these coefficients, the lowest first, by Horner's rule.
pub fn horner<F: Field>(alloc: Global, list: &[F], x: &F) -> Result<F, Stop>
    ensures value { IfOk result (λ r. F.val r ≡ eval (ValueR F.vars) (map F.val list.now) (F.val x.now)) }
    ensures wide { IfErr result KeepsWideStep }
{
    let mut value = F::zero(alloc)?;
    let mut i = list.len();
    while i > 0 {
        i -= 1;
        value = list[i].add(alloc, &x.mul(alloc, &value)?)?;
    }
    Ok(value)
}
