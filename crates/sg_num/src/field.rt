ghost use Rattle.std.specs.Prelude.{◌≡◌, ℕ, IfOk, IfErr, IsTrue, ◌↔◌};
ghost use Rattle.sg_algebra.proofs.Value.{Value, ◌+ᵛ◌, ◌-ᵛ◌, ◌*ᵛ◌, ◌/ᵛ◌, zero_value, one_value};
ghost use Rattle.sg_algebra.proofs.Rational.{rational_value};
ghost use Rattle.sg_num.specs.Stopped.{KeepsWideStep};
ghost use Rattle.sg_num.specs.Value.{fraction};
ghost use Rattle.sg_num.specs.Probe.{IsProbe};
ghost use Rattle.sg_num.specs.Laws.{LawsOfValues, laws_of_values};

use crate::rat::Rat;
use crate::row::Row;
use crate::step::Stop;
use std::alloc::Global;

/// One whole number for each variable of a field, and the values that a list of elements has there.
#[derive(Drop)]
pub struct Probe {
    pub args: Row<i128>,
    pub values: Row<Rat>,
}

/// A field of quotients of polynomials over quotients of polynomials, and so on, over the fractions. Every call that answers
/// a `Stop` gives its exact result, or stops, out of memory or at a step that doesn't fit, which it keeps.
pub trait Field: Drop {
    /// How many variables it has.
    ghost vars: { ℕ };

    /// What an element stands for; equal elements stand for one value.
    ghost val: { Self → Value vars };

    /// The element 0.
    fn zero(alloc: Global) -> Result<Self, Stop>
        ensures value { IfOk result (λ r. val r ≡ zero_value) }
        ensures wide { IfErr result KeepsWideStep };

    /// The element 1.
    fn one(alloc: Global) -> Result<Self, Stop>
        ensures value { IfOk result (λ r. val r ≡ one_value) }
        ensures wide { IfErr result KeepsWideStep };

    /// The fraction as an element.
    fn from_rat(alloc: Global, r: Rat) -> Result<Self, Stop>
        ensures value { IfOk result (λ x. val x ≡ rational_value vars (fraction r).num (fraction r).den) }
        ensures wide { IfErr result KeepsWideStep };

    /// The sum.
    fn add(&self, alloc: Global, other: &Self) -> Result<Self, Stop>
        ensures value { IfOk result (λ r. val r ≡ val self.now +ᵛ val other.now) }
        ensures wide { IfErr result KeepsWideStep };

    /// The difference.
    fn sub(&self, alloc: Global, other: &Self) -> Result<Self, Stop>
        ensures value { IfOk result (λ r. val r ≡ val self.now -ᵛ val other.now) }
        ensures wide { IfErr result KeepsWideStep };

    /// The product.
    fn mul(&self, alloc: Global, other: &Self) -> Result<Self, Stop>
        ensures value { IfOk result (λ r. val r ≡ val self.now *ᵛ val other.now) }
        ensures wide { IfErr result KeepsWideStep };

    /// The quotient by an element that isn't 0.
    fn div(&self, alloc: Global, other: &Self) -> Result<Self, Stop>
        requires { ¬ (val other.now ≡ zero_value) }
        ensures value { IfOk result (λ r. val r ≡ val self.now /ᵛ val other.now) }
        ensures wide { IfErr result KeepsWideStep };

    /// An equal element.
    fn copy(&self, alloc: Global) -> Result<Self, Stop>
        ensures value { IfOk result (λ r. val r ≡ val self.now) }
        ensures wide { IfErr result KeepsWideStep };

    /// Whether the element is 0.
    fn is_zero(&self) -> bool
        ensures { IsTrue result ↔ (val self.now ≡ zero_value) };

    /// Whether the two elements are equal.
    fn same(&self, alloc: Global, other: &Self) -> Result<bool, Stop>
        ensures value { IfOk result (λ r. IsTrue r ↔ (val self.now ≡ val other.now)) }
        ensures wide { IfErr result KeepsWideStep };

    /// Whole numbers for the variables at which each item of the list has a value, and each that isn't 0 a value other than 0,
    /// and these values in order. Where a number that is to be tried doesn't fit, it answers the step that would make it.
    fn probe(alloc: Global, list: &Row<Self>) -> Result<Probe, Stop>
        ensures value { IfOk result (λ p. IsProbe vars val list.now p.args p.values) }
        ensures wide { IfErr result KeepsWideStep };

    /// Elements that may be roots of the polynomial with these coefficients, the lowest first: guesses, each to be tried, and a
    /// root need not be among them.
    fn linear_roots(alloc: Global, p: &[Self]) -> Result<Row<Self>, Stop>
        ensures wide { IfErr result KeepsWideStep };

    /// What isn't 0 has, past every bound, whole numbers at which its value isn't 0; there is one value at most at given numbers; and
    /// sums, differences, products and quotients have the values that they should.
    ghost values: { LawsOfValues vars } = { laws_of_values vars };
}
