ghost use Rattle.std.specs.Prelude.{◌≡◌, ◌<◌, ◌≤◌, ◌%◌, ◌++◌, pos, ◌*ℤ◌, ◌<ℤ◌, unsigned_abs, IfOk, OnOk};
ghost use Rattle.sg_algebra.specs.Coefficients.{Each};
ghost use Rattle.sg_canonical.specs.Whole.{common_divisor};
ghost use Rattle.sg_plain.specs.Lowest.{times, IsReduced};

use sg_canonical::Common;
use sg_num::{Row, gcd_of};
use std::alloc::{AllocError, Global};

/// The numbers over a denominator in lowest terms.
pub fn reduced(alloc: Global, numbers: &[i128], denominator: i128) -> Result<Common, AllocError>
    requires { pos 0 <ℤ denominator }
    ensures { IfOk result (λ w. IsReduced numbers.now denominator w.numbers w.denominator) }
{
    let by = divisor(numbers, denominator);
    let numbers = quotients(alloc, numbers, by)?;
    Ok(Common {
        numbers,
        denominator: exact_quotient(denominator, by),
    })
}

// The greatest common divisor of the numbers and the denominator, as a whole number.
fn divisor(numbers: &[i128], denominator: i128) -> i128
    requires { pos 0 <ℤ denominator }
    ensures value { result ≡ pos (common_divisor numbers.now (unsigned_abs denominator)) }
    ensures some { pos 0 <ℤ result }
{
    greatest_divisor(numbers, denominator.unsigned_abs()) as i128
}

// The greatest common divisor of the numbers and the denominator.
#[tactic(auto, using(sg_algebra::proofs::Divisor::gcd_le))]
fn greatest_divisor(numbers: &[i128], denominator: u128) -> u128
    requires { 0 < denominator }
    ensures value { result ≡ common_divisor numbers.now denominator }
    ensures some { 0 < result }
    ensures small { result ≤ denominator }
{
    match numbers.split_first() {
        None => denominator,
        Some((c, rest)) => gcd_of(c.unsigned_abs(), greatest_divisor(rest, denominator)),
    }
}

// Each of the numbers over one that divides them all.
fn quotients(alloc: Global, numbers: &[i128], by: i128) -> Result<Row<i128>, AllocError>
    requires positive { pos 0 <ℤ by }
    requires exact { Each (λ c. unsigned_abs c % unsigned_abs by ≡ 0) numbers.now }
    ensures { IfOk result (λ r. times by r ≡ numbers.now) }
{
    let mut result = Row::new(alloc);
    push_quotients(numbers, by, &mut result)?;
    Ok(result)
}

// Adds each of the numbers over one that divides them all.
fn push_quotients(numbers: &[i128], by: i128, out: &mut Row<i128>) -> Result<(), AllocError>
    requires positive { pos 0 <ℤ by }
    requires exact { Each (λ c. unsigned_abs c % unsigned_abs by ≡ 0) numbers.now }
    ensures { OnOk result (times by out.new ≡ times by out.old ++ numbers.now) }
{
    match numbers.split_first() {
        None => Ok(()),
        Some((c, rest)) => {
            out.push(exact_quotient(*c, by))?;
            push_quotients(rest, by, out)
        }
    }
}

// The quotient by a number that divides it.
fn exact_quotient(a: i128, by: i128) -> i128
    requires positive { pos 0 <ℤ by }
    requires exact { unsigned_abs a % unsigned_abs by ≡ 0 }
    ensures value { result *ℤ by ≡ a }
    ensures sign { pos 0 <ℤ a → pos 0 <ℤ result }
{
    a / by
}
