//! Whole roots of polynomials over the fractions, split off.
ghost use Rattle.std.specs.Prelude.{◌≡◌, ◌<◌, ◌≤◌, ℤ, ◌<ℤ◌, length, map, AllPairs, Contains, IfOk, IfErr, ◌↔◌};
ghost use Rattle.sg_algebra.proofs.Polynomial.{zero_polynomial, ◌*ᵖ◌};
ghost use Rattle.sg_num.specs.Roots.{IsRoot};
ghost use Rattle.sg_num.specs.Stopped.{KeepsWideStep};
ghost use Rattle.sg_num.specs.Value.{number};
ghost use Rattle.sg_poly.specs.Polynomials.{polynomial};
ghost use Rattle.sg_spread.specs.Splits.{product_of, AreAllRoots};

use sg_num::{Rat, Row, Stop, whole_roots};
use sg_poly::Poly;
use sg_roots::far_roots;
use std::alloc::Global;

// Roots with their multiplicities, and what is left when they are split off.
#[derive(Drop)]
pub(crate) struct Parts {
    pub(crate) roots: Row<i128>,
    pub(crate) rest: Poly<Rat>,
}

/// The whole roots of a polynomial other than 0, with their multiplicities, and what is left: it has no whole root.
pub(crate) fn split(alloc: Global, p: &Poly<Rat>) -> Result<Parts, Stop>
    requires { ¬ (polynomial number p.now ≡ zero_polynomial) }
    ensures product { IfOk result (λ r. product_of r.roots r.rest ≡ polynomial number p.now) }
    ensures none { IfOk result (λ r. (m : ℤ) → ¬ IsRoot (map number r.rest) m) }
    ensures wide { IfErr result KeepsWideStep }
{
    let rest = p.copy(alloc)?;
    let mut left = Parts {
        roots: Row::new(alloc),
        rest,
    };
    let mut found = roots_of(alloc, &left.rest)?;
    while !found.is_empty() {
        left = split_each(alloc, left, found.as_slice())?;
        found = roots_of(alloc, &left.rest)?;
    }
    Ok(left)
}

/// The whole roots of a polynomial other than 0, in ascending order: numbers are tried where few have to be, and else the
/// roots are found by bisecting.
pub(crate) fn roots_of(alloc: Global, p: &Poly<Rat>) -> Result<Row<i128>, Stop>
    requires { ¬ (polynomial number p.now ≡ zero_polynomial) }
    ensures ascending { IfOk result (AllPairs ◌<ℤ◌) }
    ensures roots { IfOk result (λ r. (m : ℤ) → Contains r m ↔ IsRoot (map number p.now) m) }
    ensures wide { IfErr result KeepsWideStep }
{
    match whole_roots(alloc, p.coeffs()) {
        Ok(r) => Ok(r),
        Err(Stop::Memory(_)) => {
            let r = far_roots(alloc, p.coeffs())?;
            Ok(r)
        }
        Err(stop) => Err(stop),
    }
}

// Each of the numbers split off once, if it is a root of what is left; the first is one where all of them are.
fn split_each(alloc: Global, split: Parts, list: &[i128]) -> Result<Parts, Stop>
    ensures value { IfOk result (λ r. product_of r.roots r.rest ≡ product_of split.roots split.rest) }
    ensures more { IfOk result (λ r. 0 < length list.now → AreAllRoots split.rest list.now → length split.roots < length r.roots) }
    ensures wide { IfErr result KeepsWideStep }
{
    let mut left = split;
    for i in 0..list.len() {
        left = split_off(alloc, left, list[i])?;
    }
    Ok(left)
}

// The number split off once, if it is a root of what is left.
fn split_off(alloc: Global, split: Parts, m: i128) -> Result<Parts, Stop>
    ensures value { IfOk result (λ r. product_of r.roots r.rest ≡ product_of split.roots split.rest) }
    ensures kept { IfOk result (λ r. length split.roots ≤ length r.roots) }
    ensures more { IfOk result (λ r. IsRoot (map number split.rest) m → length split.roots < length r.roots) }
    ensures wide { IfErr result KeepsWideStep }
{
    let factor = Poly::linear(alloc, &Rat::whole(m))?;
    let (quotient, left) = split.rest.div_rem(alloc, &factor)?;
    if !left.is_zero() {
        return Ok(split);
    }
    let mut roots = split.roots;
    roots.push(m)?;
    Ok(Parts {
        roots,
        rest: quotient,
    })
}
