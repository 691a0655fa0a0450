use sg_num::{Rat, Row, Stop};
use sg_poly::Poly;
use std::alloc::Global;

/// The polynomial of these whole coefficients, the lowest first.
pub fn polynomial(alloc: Global, list: &[i128]) -> Result<Poly<Rat>, Stop> {
    let mut row = Row::new(alloc);
    for n in list {
        row.push(Rat::whole(*n))?;
    }
    Poly::from_coeffs(alloc, row)
}
