//! What a product is over others: the answers.
use sg_num::{Field, Row};
use sg_ratfun::RatFun;

/// What a product is over others that are free over one another, x_1, .., x_n with the factors alpha_1, .., alpha_n.
#[derive(Drop)]
pub enum Relation<F: Field> {
    /// No product of powers of them and of the new one, but the trivial one, is a rational function of k times a constant.
    Free,
    /// The new one's factor is alpha_1^e_1 .. alpha_n^e_n r(k+1)/r(k), with the exponents `exps` and the ratio r.
    Expressed { exps: Row<i128>, ratio: RatFun<F> },
    /// It isn't so expressed, but a power of it is: the product of the powers of all factors, the new one's last and with a
    /// positive exponent, is r(k+1)/r(k). All exponents with this property are multiples of `exps`.
    Dependent { exps: Row<i128>, ratio: RatFun<F> },
}
