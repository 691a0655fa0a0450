//! Whole roots of polynomials over the fractions.
ghost use Rattle.std.specs.Prelude.{◌≡◌, ℤ, map, AllPairs, Contains, ◌<ℤ◌, IfOk, IfErr, ◌↔◌};
ghost use Rattle.sg_algebra.proofs.Polynomial.{poly, zero_polynomial};
ghost use Rattle.sg_num.specs.Stopped.{KeepsWideStep};
ghost use Rattle.sg_num.specs.Value.{number};
ghost use Rattle.sg_num.specs.Roots.{IsRoot};

use crate::clear::{cleared, common_denominator};
use crate::rat::Rat;
use crate::row::Row;
use crate::scan::{bound, scanned};
use crate::step::Stop;
use std::alloc::{AllocError, Global};

// The greatest bound below which numbers are tried: 2^20 of them.
const MOST: u32 = 524_288;

/// The whole roots of the polynomial other than 0 with these coefficients, the lowest first, in ascending order. The
/// coefficients are made whole, a power of 2 is found that no root reaches in size, by Cauchy's bound, and the numbers below it
/// are tried by exact divisions. Where this power would be above 2^19, so that more than 2^20 numbers would be tried, the answer
/// is out of memory.
pub fn whole_roots(alloc: Global, list: &[Rat]) -> Result<Row<i128>, Stop>
    requires { ¬ (poly (map number list.now) ≡ zero_polynomial) }
    ensures ascending { IfOk result (AllPairs ◌<ℤ◌) }
    ensures roots { IfOk result (λ r. (m : ℤ) → Contains r m ↔ IsRoot (map number list.now) m) }
    ensures wide { IfErr result KeepsWideStep }
{
    let multiple = common_denominator(list)?;
    let whole = cleared(alloc, list, multiple)?;
    let Some(b) = bound(whole.as_slice(), MOST) else {
        return Err(Stop::Memory(AllocError));
    };
    let r = scanned(alloc, whole.as_slice(), b)?;
    Ok(r)
}
