ghost use Rattle.std.specs.Prelude.{◌≡◌};

use sg_num::Row;
use std::marker::Model;

/// An element with one more sum t: the coefficients of a polynomial in t, from the lowest.
#[derive(Drop)]
pub struct Poly1<E> {
    coeffs: Row<E>,
}

impl<E> Model for Poly1<E> {
    ghost use Rattle.std.specs.Prelude.{List};

    ghost Value = { List E };

    ghost view = { λ p. p.coeffs };
}

impl<E> Poly1<E> {
    /// The polynomial with these coefficients.
    pub fn of(coeffs: Row<E>) -> Poly1<E>
        ensures { result ≡ coeffs }
    {
        Poly1 { coeffs }
    }

    // Its coefficients.
    pub(crate) fn row(&self) -> &Row<E>
        ensures { result.now ≡ self.now }
    {
        &self.coeffs
    }
}
