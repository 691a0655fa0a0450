use sg_num::{Field, Rat, Row, Stop};
use sg_poly::Poly;
use sg_ratfun::RatFun;
use std::alloc::Global;

/// The polynomial of these whole coefficients, the lowest first.
pub fn whole(alloc: Global, list: &[i128]) -> Result<Poly<Rat>, Stop> {
    let mut row = Row::new(alloc);
    for n in list {
        row.push(Rat::whole(*n))?;
    }
    Poly::from_coeffs(alloc, row)
}

/// p / q; 0 where q is 0.
pub fn over<F: Field>(alloc: Global, p: Poly<F>, q: Poly<F>) -> Result<RatFun<F>, Stop> {
    if q.is_zero() {
        return RatFun::zero(alloc);
    }
    RatFun::new(alloc, p, q)
}

/// The fraction of these whole coefficients above and below; 0 where the denominator is.
pub fn fraction(alloc: Global, num: &[i128], den: &[i128]) -> Result<RatFun<Rat>, Stop> {
    let p = whole(alloc, num)?;
    let q = whole(alloc, den)?;
    over(alloc, p, q)
}
