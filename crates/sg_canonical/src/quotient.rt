ghost use Rattle.std.specs.Prelude.{◌≡◌, ◌++◌, IfOk, IfErr, OnOk, ◌≤◌, ◌-◌, map, take, drop, length};
ghost use Rattle.sg_algebra.proofs.Degree.{Monic};
ghost use Rattle.sg_algebra.proofs.ValueField.{ValueR};
ghost use Rattle.sg_num.specs.Stopped.{KeepsWideStep};
ghost use Rattle.sg_num.specs.Value.{number};
ghost use Rattle.sg_canonical.specs.Whole.{IsCommon, IsPrimitiveQuotient};

use crate::common::over_common;
use sg_num::{Rat, Row, Stop};
use std::alloc::Global;

/// A quotient of two polynomials with whole coefficients, the highest first.
#[derive(Drop)]
pub struct Quotient {
    pub upper: Row<i128>,
    pub lower: Row<i128>,
}

/// The quotient of two polynomials, the lower one monic, with whole coefficients that have no common divisor and a
/// positive leading coefficient below.
pub fn primitive_quotient(alloc: Global, upper: &[Rat], lower: &[Rat]) -> Result<Quotient, Stop>
    requires monic { Monic (ValueR 0) (length lower.now - 1) (map number lower.now) }
    ensures value { IfOk result (λ r. IsPrimitiveQuotient (map number upper.now) (map number lower.now) r.upper r.lower) }
    ensures wide { IfErr result KeepsWideStep }
{
    let mut list = Row::from_slice(alloc, upper)?;
    list.extend_from_slice(lower)?;
    let common = over_common(alloc, list.as_slice())?;
    let r = parted(alloc, common.numbers.as_slice(), lower.len())?;
    Ok(r)
}

// The first n numbers and the others.
fn parted(alloc: Global, numbers: &[i128], n: usize) -> Result<Quotient, Stop>
    requires { n ≤ length numbers.now }
    ensures lower { IfOk result (λ r. r.lower ≡ take n numbers.now) }
    ensures upper { IfOk result (λ r. r.upper ≡ drop n numbers.now) }
    ensures wide { IfErr result KeepsWideStep }
{
    let (first, others) = numbers.split_at(n);
    let lower = Row::from_slice(alloc, first)?;
    let upper = Row::from_slice(alloc, others)?;
    Ok(Quotient { upper, lower })
}
