ghost use Rattle.std.specs.Prelude.{◌≡◌, suc, map, [], ◌∷◌, IfOk, IfErr, IsTrue, ◌↔◌};
ghost use Rattle.sg_algebra.proofs.Value.{Value, over_value, ◌+ᵛ◌, ◌-ᵛ◌, ◌*ᵛ◌, ◌/ᵛ◌, zero_value, one_value};
ghost use Rattle.sg_algebra.proofs.Rational.{rational_value};
ghost use Rattle.sg_num.specs.Stopped.{KeepsWideStep};
ghost use Rattle.sg_ratfun.specs.Reduced.{IsReduced};

use crate::guess::guessed;
use crate::parts::{Parts, difference, product, quotient, sum};
use crate::probe::probed;
use crate::ratfun::RatFun;
use sg_num::{Field, Probe, Rat, Row, Stop};
use sg_poly::Poly;
use std::alloc::Global;

/// Rational functions over a field are a field with one variable more. Sums go over the least common denominator, and products
/// first lose what is common across, as Henrici does with fractions (Knuth, The Art of Computer Programming, 4.5.1), so that
/// numbers stay small.
impl<F: Field> Field for RatFun<F> {
    ghost use Rattle.std.specs.Prelude.{suc, map};
    ghost use Rattle.sg_algebra.proofs.Value.{over_value};

    ghost vars = { suc F.vars };

    ghost val = { λ r. over_value (map F.val r.0) (map F.val r.1) };

    fn zero(alloc: Global) -> Result<RatFun<F>, Stop> {
        let c = F::zero(alloc)?;
        let r = RatFun::from_constant(alloc, c)?;
        Ok(r)
    }

    fn one(alloc: Global) -> Result<RatFun<F>, Stop> {
        let c = F::one(alloc)?;
        let r = RatFun::from_constant(alloc, c)?;
        Ok(r)
    }

    fn from_rat(alloc: Global, r: Rat) -> Result<RatFun<F>, Stop> {
        let c = F::from_rat(alloc, r)?;
        let x = RatFun::from_constant(alloc, c)?;
        Ok(x)
    }

    fn add(&self, alloc: Global, other: &RatFun<F>) -> Result<RatFun<F>, Stop> {
        let parts = sum(
            alloc,
            self.upper(),
            self.lower(),
            other.upper(),
            other.lower(),
        )?;
        Ok(RatFun::of(parts))
    }

    fn sub(&self, alloc: Global, other: &RatFun<F>) -> Result<RatFun<F>, Stop> {
        let parts = difference(
            alloc,
            self.upper(),
            self.lower(),
            other.upper(),
            other.lower(),
        )?;
        Ok(RatFun::of(parts))
    }

    fn mul(&self, alloc: Global, other: &RatFun<F>) -> Result<RatFun<F>, Stop> {
        let parts = product(
            alloc,
            self.upper(),
            self.lower(),
            other.upper(),
            other.lower(),
        )?;
        Ok(RatFun::of(parts))
    }

    fn div(&self, alloc: Global, other: &RatFun<F>) -> Result<RatFun<F>, Stop> {
        let parts = quotient(
            alloc,
            self.upper(),
            self.lower(),
            other.upper(),
            other.lower(),
        )?;
        Ok(RatFun::of(parts))
    }

    fn copy(&self, alloc: Global) -> Result<RatFun<F>, Stop> {
        let num = self.upper().copy(alloc)?;
        let den = self.lower().copy(alloc)?;
        Ok(RatFun::of(Parts { num, den }))
    }

    fn is_zero(&self) -> bool {
        let _den = self.lower();
        self.upper().is_zero()
    }

    fn same(&self, alloc: Global, other: &RatFun<F>) -> Result<bool, Stop> {
        let nums = self.upper().same(alloc, other.upper())?;
        if !nums {
            return Ok(false);
        }
        let dens = self.lower().same(alloc, other.lower())?;
        Ok(dens)
    }

    fn probe(alloc: Global, list: &Row<RatFun<F>>) -> Result<Probe, Stop> {
        let p = probed(alloc, list)?;
        Ok(p)
    }

    fn linear_roots(alloc: Global, p: &[RatFun<F>]) -> Result<Row<RatFun<F>>, Stop> {
        let r = guessed(alloc, p)?;
        Ok(r)
    }
}
