ghost use Rattle.std.specs.Prelude.{◌≡◌, IfOk, IfErr, IsOk, IsTrue, ◌↔◌};
ghost use Rattle.sg_algebra.proofs.Value.{◌+ᵛ◌, ◌-ᵛ◌, ◌*ᵛ◌, ◌/ᵛ◌, zero_value, one_value};
ghost use Rattle.sg_algebra.proofs.Rational.{rational_value};
ghost use Rattle.sg_num.specs.Stopped.{KeepsWideStep, IsStep};
ghost use Rattle.sg_num.specs.Value.{fraction, number};

use crate::field::{Field, Probe};
use crate::guess::guessed;
use crate::rat::Rat;
use crate::row::Row;
use crate::step::{Op, Stop};
use std::alloc::Global;

/// The fractions, a field without variables. Its calls but `probe` take no memory.
impl Field for Rat {
    ghost use Rattle.sg_num.specs.Value.{number};

    ghost vars = { 0 };

    ghost val = { number };

    fn zero(alloc: Global) -> Result<Rat, Stop>
        ensures value { IfOk result (λ r. number r ≡ zero_value) }
        ensures always { IsOk result }
    {
        Ok(Rat::whole(0))
    }

    fn one(alloc: Global) -> Result<Rat, Stop>
        ensures value { IfOk result (λ r. number r ≡ one_value) }
        ensures always { IsOk result }
    {
        Ok(Rat::whole(1))
    }

    fn from_rat(alloc: Global, r: Rat) -> Result<Rat, Stop>
        ensures value { IfOk result (λ x. number x ≡ rational_value 0 (fraction r).num (fraction r).den) }
        ensures always { IsOk result }
    {
        Ok(r)
    }

    fn add(&self, alloc: Global, other: &Rat) -> Result<Rat, Stop>
        ensures value { IfOk result (λ r. number r ≡ number self.now +ᵛ number other.now) }
        ensures wide { IfErr result (IsStep Op.Add self.now other.now) }
    {
        let r = self.plus(*other)?;
        Ok(r)
    }

    fn sub(&self, alloc: Global, other: &Rat) -> Result<Rat, Stop>
        ensures value { IfOk result (λ r. number r ≡ number self.now -ᵛ number other.now) }
        ensures wide { IfErr result (IsStep Op.Sub self.now other.now) }
    {
        let r = self.minus(*other)?;
        Ok(r)
    }

    fn mul(&self, alloc: Global, other: &Rat) -> Result<Rat, Stop>
        ensures value { IfOk result (λ r. number r ≡ number self.now *ᵛ number other.now) }
        ensures wide { IfErr result (IsStep Op.Mul self.now other.now) }
    {
        let r = self.times(*other)?;
        Ok(r)
    }

    fn div(&self, alloc: Global, other: &Rat) -> Result<Rat, Stop>
        requires { ¬ (number other.now ≡ zero_value) }
        ensures value { IfOk result (λ r. number r ≡ number self.now /ᵛ number other.now) }
        ensures wide { IfErr result (IsStep Op.Div self.now other.now) }
    {
        let r = self.over(*other)?;
        Ok(r)
    }

    fn copy(&self, alloc: Global) -> Result<Rat, Stop>
        ensures value { IfOk result (λ r. r ≡ self.now) }
        ensures always { IsOk result }
    {
        Ok(*self)
    }

    fn is_zero(&self) -> bool {
        Rat::is_zero(*self)
    }

    fn same(&self, alloc: Global, other: &Rat) -> Result<bool, Stop>
        ensures value { IfOk result (λ r. IsTrue r ↔ (number self.now ≡ number other.now)) }
        ensures always { IsOk result }
    {
        Ok(*self == *other)
    }

    fn probe(alloc: Global, list: &Row<Rat>) -> Result<Probe, Stop> {
        let mut values = Row::new(alloc);
        for i in 0..list.len() {
            values.push(*list.get(i))?;
        }
        Ok(Probe {
            args: Row::new(alloc),
            values,
        })
    }

    fn linear_roots(alloc: Global, p: &[Rat]) -> Result<Row<Rat>, Stop> {
        let r = guessed(alloc, p)?;
        Ok(r)
    }
}
