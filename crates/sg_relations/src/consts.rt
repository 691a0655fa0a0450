//! Which products of powers of constants are 1 or -1.
ghost use Rattle.std.specs.Prelude.{◌≡◌, length, map, All, IfOk, IfErr, IsTrue, ◌↔◌};
ghost use Rattle.sg_algebra.proofs.Value.{zero_value, one_value, neg_value};
ghost use Rattle.sg_algebra.proofs.ValueField.{ValueF};
ghost use Rattle.sg_num.specs.Stopped.{KeepsWideStep};
ghost use Rattle.sg_tower_theory.specs.Powers.{powers};
ghost use Rattle.sg_relations_theory.specs.Relations.{IsSign, AreExponents};

use crate::factors::{Shifts, refined};
use crate::monic::{factors_of, joined_rows, leads_of};
use crate::numbers;
use sg_num::{Field, Rat, Row, Stop};
use sg_ratfun::RatFun;
use std::alloc::Global;

/// A field of constants in which the relations among products of powers are found.
pub trait Consts: Field {
    /// A row of whole exponents for each of some constants, none of which is 0, over a common list of coprime elements: a product
    /// of powers of the constants is 1 or -1 exactly where the sum of the rows, each times its exponent, is 0. (Bernstein 2005:
    /// coprime bases by greatest common divisors alone, without prime factors.)
    fn exponents(alloc: Global, list: &Row<Self>) -> Result<Row<Row<i128>>, Stop>
        requires { All (λ x. ¬ (Self.val x ≡ zero_value)) list.now }
        ensures value { IfOk result (AreExponents (map Self.val list.now)) }
        ensures wide { IfErr result KeepsWideStep };

    /// Whether a product of powers of constants, which is 1 or -1, is -1. No power is multiplied out.
    fn is_minus_one(alloc: Global, list: &Row<Self>, exps: &[i128]) -> Result<bool, Stop>
        requires some { All (λ x. ¬ (Self.val x ≡ zero_value)) list.now }
        requires sized { length exps.now ≡ length list.now }
        requires sign { IsSign (powers (ValueF Self.vars) (map Self.val list.now) exps.now) }
        ensures value { IfOk result (λ r. IsTrue r ↔ (powers (ValueF Self.vars) (map Self.val list.now) exps.now ≡ neg_value one_value)) }
        ensures wide { IfErr result KeepsWideStep };
}

/// The rows are over coprime whole numbers above 1; the sign is that of the negative fractions with odd exponents.
impl Consts for Rat {
    fn exponents(alloc: Global, list: &Row<Rat>) -> Result<Row<Row<i128>>, Stop> {
        let rows = numbers::exponents(alloc, list)?;
        Ok(rows)
    }

    fn is_minus_one(alloc: Global, list: &Row<Rat>, exps: &[i128]) -> Result<bool, Stop> {
        let _ = alloc;
        Ok(numbers::is_negative(list.as_slice(), exps))
    }
}

/// The rows are over coprime monic polynomials, and then those of the leading coefficients; the sign is that of these.
impl Consts for RatFun<Rat> {
    fn exponents(alloc: Global, list: &Row<RatFun<Rat>>) -> Result<Row<Row<i128>>, Stop> {
        let leads = leads_of(alloc, list)?;
        let factors = factors_of(alloc, list)?;
        let basis = refined(alloc, Shifts::Zero, list.len(), factors)?;
        let constants = Rat::exponents(alloc, &leads)?;
        let rows = joined_rows(alloc, &basis, &constants)?;
        Ok(rows)
    }

    fn is_minus_one(alloc: Global, list: &Row<RatFun<Rat>>, exps: &[i128]) -> Result<bool, Stop> {
        let leads = leads_of(alloc, list)?;
        let negative = Rat::is_minus_one(alloc, &leads, exps)?;
        Ok(negative)
    }
}
