use sg_laurent::Laurent;
use sg_num::{Field, Row};
use sg_ratfun::RatFun;

/// What is known so far of a solution: its constants, its terms at some exponents, and what these leave of the right side.
#[derive(Drop)]
pub struct Partial<F: Field> {
    pub coeffs: Row<F>,
    pub value: Laurent<RatFun<F>>,
    pub left: Laurent<RatFun<F>>,
}
