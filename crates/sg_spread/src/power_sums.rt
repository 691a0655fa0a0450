//! The polynomial whose roots are the differences of the roots of two others, guessed by the sums of the powers of roots.
ghost use Rattle.std.specs.Prelude.{IfErr};
ghost use Rattle.sg_num.specs.Stopped.{KeepsWideStep};

use sg_num::{Field, Rat, Row, Stop};
use std::alloc::Global;

/// The coefficients of the monic polynomial whose roots are j - k for the roots k of a and j of b, `size` in all, by Newton's
/// identities: the sums of powers of the roots of a and of b, those of the differences, and the coefficients that have them.
/// `a` and `b` are the coefficients of monic polynomials. It is a guess: nothing is promised, so it has to be tried.
pub(crate) fn guessed(alloc: Global, a: &[Rat], b: &[Rat], size: usize) -> Result<Row<Rat>, Stop>
    ensures wide { IfErr result KeepsWideStep }
{
    let left = sums_of_powers(alloc, a, size)?;
    let right = sums_of_powers(alloc, b, size)?;
    let mut binomials = one(alloc)?;
    let mut sums = Row::new(alloc);
    let mut list = one(alloc)?;
    for _ in 0..size {
        binomials = next_binomials(alloc, binomials.as_slice())?;
        let sum = sum_of_differences(alloc, left.as_slice(), right.as_slice(), &binomials)?;
        sums.push(sum)?;
        let c = next_coefficient(alloc, list.as_slice(), sums.as_slice())?;
        list.push(c)?;
    }
    list.reverse();
    Ok(list)
}

fn one(alloc: Global) -> Result<Row<Rat>, Stop>
    ensures wide { IfErr result KeepsWideStep }
{
    let mut row = Row::new(alloc);
    row.push(Rat::whole(1))?;
    Ok(row)
}

// The sums of the powers of the roots of a monic polynomial, the exponents being 0 to `size`.
fn sums_of_powers(alloc: Global, a: &[Rat], size: usize) -> Result<Row<Rat>, Stop>
    ensures wide { IfErr result KeepsWideStep }
{
    let mut sums = Row::new(alloc);
    sums.push(Rat::whole(a.len().saturating_sub(1) as i128))?;
    for _ in 0..size {
        let next = next_sum(alloc, a, sums.as_slice())?;
        sums.push(next)?;
    }
    Ok(sums)
}

// The sum of the next powers s: -(s a_s + a_1 sum_(s-1) + .. + a_(s-1) sum_1), where a_i is the coefficient i places before the
// last one.
fn next_sum(alloc: Global, a: &[Rat], sums: &[Rat]) -> Result<Rat, Stop>
    ensures wide { IfErr result KeepsWideStep }
{
    let s = sums.len();
    let mut total = from_end(a, s).mul(alloc, &Rat::whole(s as i128))?;
    for i in 1..s {
        let more = from_end(a, i).mul(alloc, &item(sums, s - i))?;
        total = total.add(alloc, &more)?;
    }
    let r = Rat::whole(0).sub(alloc, &total)?;
    Ok(r)
}

// The binomial coefficients of the next exponent.
fn next_binomials(alloc: Global, row: &[Rat]) -> Result<Row<Rat>, Stop>
    ensures wide { IfErr result KeepsWideStep }
{
    let mut new = one(alloc)?;
    for i in 0..row.len() {
        let sum = row[i].add(alloc, &item(row, i + 1))?;
        new.push(sum)?;
    }
    Ok(new)
}

// The sum of the powers of the differences, whose exponent is that of the binomial coefficients.
fn sum_of_differences(
    alloc: Global,
    left: &[Rat],
    right: &[Rat],
    binomials: &Row<Rat>,
) -> Result<Rat, Stop>
    ensures wide { IfErr result KeepsWideStep }
{
    let mut total = Rat::whole(0);
    for i in 0..binomials.len() {
        let other = binomials.len() - 1 - i;
        let product = item(right, i).mul(alloc, &item(left, other))?;
        let term = binomials.get(i).mul(alloc, &product)?;
        total = with_sign(alloc, total, term, other % 2 == 1)?;
    }
    Ok(total)
}

fn with_sign(alloc: Global, total: Rat, term: Rat, negative: bool) -> Result<Rat, Stop>
    ensures wide { IfErr result KeepsWideStep }
{
    if negative {
        let r = total.sub(alloc, &term)?;
        return Ok(r);
    }
    let r = total.add(alloc, &term)?;
    Ok(r)
}

// The next coefficient t, counted from the leading one: -(c_(t-1) sum_1 + .. + c_0 sum_t) / t.
fn next_coefficient(alloc: Global, list: &[Rat], sums: &[Rat]) -> Result<Rat, Stop>
    ensures wide { IfErr result KeepsWideStep }
{
    let mut total = Rat::whole(0);
    for i in 0..sums.len() {
        let more = from_end(list, i).mul(alloc, &sums[i])?;
        total = total.add(alloc, &more)?;
    }
    match Rat::new(-1, sums.len() as i128) {
        None => Ok(total),
        Some(c) => {
            let r = total.mul(alloc, &c)?;
            Ok(r)
        }
    }
}

// The item at a place; 0 past the end.
fn item(list: &[Rat], i: usize) -> Rat {
    if i < list.len() {
        return list[i];
    }
    Rat::whole(0)
}

// The item so many places before the last one; 0 before the first.
fn from_end(list: &[Rat], i: usize) -> Rat {
    if i < list.len() {
        return list[list.len() - 1 - i];
    }
    Rat::whole(0)
}
