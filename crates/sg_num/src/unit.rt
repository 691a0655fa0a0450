//! Polynomials over the fractions in another unit: for the degree n, c^n p(k/c).
ghost use Rattle.std.specs.Prelude.{◌≡◌, ◌<◌, ◌-◌, ℤ, pos, ◌<ℤ◌, length, map, IfOk, IfErr};
ghost use Rattle.sg_algebra.proofs.Ring.{pow};
ghost use Rattle.sg_algebra.proofs.Value.{◌*ᵛ◌};
ghost use Rattle.sg_algebra.proofs.ValueField.{ValueR};
ghost use Rattle.sg_algebra.proofs.Polynomial.{poly};
ghost use Rattle.sg_num.specs.Scaled.{scaled};
ghost use Rattle.sg_num.specs.Stopped.{IsTooWide, KeepsWideStep};
ghost use Rattle.sg_num.specs.Value.{number};

use crate::rat::Rat;
use crate::row::Row;
use crate::step::{Stop, Wide};
use std::alloc::Global;

// The greatest number that is tried for c.
const MOST: u32 = 1024;

/// A guess at a number from 1 to 1024 in whose unit both lists of coefficients are whole. Nothing but its sign is promised: what
/// is found by it is tried by exact divisions, and a worse guess only leaves more to an elimination.
pub fn common_unit(a: &[Rat], b: &[Rat]) -> i128
    ensures { pos 0 <ℤ result }
{
    let mut c = 0;
    for _ in 0..MOST {
        c += 1;
        if makes_whole(a, c) {
            if makes_whole(b, c) {
                return c;
            }
        }
    }
    1
}

// Whether `c` is seen to make all coefficients whole.
fn makes_whole(list: &[Rat], c: i128) -> bool {
    for i in 0..list.len() {
        match times_power(list[i], Rat::whole(c), list.len() - 1 - i) {
            Ok(x) => {
                if x.den() != 1 {
                    return false;
                }
            }
            Err(_) => return false,
        }
    }
    true
}

/// The coefficients in the unit `c`, the lowest first: each times a power of `c`, the last one times 1. So roots are `c` times as
/// great.
pub fn in_unit(alloc: Global, list: &[Rat], c: Rat) -> Result<Row<Rat>, Stop>
    ensures value { IfOk result (λ r. poly (map number r) ≡ poly (scaled (ValueR 0) (number c) (map number list.now))) }
    ensures wide { IfErr result KeepsWideStep }
{
    let mut row = Row::new(alloc);
    for i in 0..list.len() {
        row.push(times_power(list[i], c, list.len() - 1 - i)?)?;
    }
    Ok(row)
}

// `x` times the n-th power of `c`.
fn times_power(x: Rat, c: Rat, n: usize) -> Result<Rat, Wide>
    ensures value { IfOk result (λ r. number r ≡ number x *ᵛ pow (ValueR 0) (number c) n) }
    ensures wide { IfErr result IsTooWide }
{
    let mut product = x;
    for _ in 0..n {
        product = product.times(c)?;
    }
    Ok(product)
}
