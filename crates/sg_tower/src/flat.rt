use sg_num::{Field, Row};
use sg_ratfun::RatFun;

/// One term of an element: the exponents of the products and then of the sums, in their order, and a rational function.
#[derive(Drop)]
pub struct FlatTerm<K: Field> {
    pub exps: Row<i128>,
    pub coeff: RatFun<K>,
}
