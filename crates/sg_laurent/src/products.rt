ghost use Rattle.std.specs.Prelude.{◌≡◌, ◌+ℤ◌, length, IfOk, IfErr};
ghost use Rattle.sg_algebra.specs.Coefficients.{Each, zip_longest};
ghost use Rattle.sg_algebra.proofs.Value.{◌*ᵛ◌};
ghost use Rattle.sg_num.specs.Stopped.{KeepsWideStep};
ghost use Rattle.sg_laurent.specs.Elements.{exponents, Same, Sum, Product, element, term_in, IsNormal};

use crate::exponents::exponents_sum;
use crate::terms::{Term, gathered};
use sg_num::{Field, Row, Stop};
use std::alloc::Global;

/// The product of two lists of terms.
pub(crate) fn product<K: Field>(
    alloc: Global,
    n: usize,
    xs: &[Term<K>],
    ys: &[Term<K>],
) -> Result<Row<Term<K>>, Stop>
    requires left { Each (λ t. length (exponents t) ≡ n) xs.now }
    requires right { Each (λ t. length (exponents t) ≡ n) ys.now }
    ensures value { IfOk result (λ r. Same K.val n (element K.val n r) (Product K.val n (element K.val n xs.now) (element K.val n ys.now))) }
    ensures normal { IfOk result (IsNormal K.val n) }
    ensures wide { IfErr result KeepsWideStep }
{
    let mut row = Row::new(alloc);
    for i in 0..xs.len() {
        row = with_products(alloc, n, row, &xs[i], ys)?;
    }
    Ok(row)
}

/// The terms and the products of a term and those of a list more.
pub(crate) fn with_products<K: Field>(
    alloc: Global,
    n: usize,
    terms: Row<Term<K>>,
    s: &Term<K>,
    ys: &[Term<K>],
) -> Result<Row<Term<K>>, Stop>
    requires normal { IsNormal K.val n terms }
    requires own { length (exponents s.now) ≡ n }
    requires fit { Each (λ t. length (exponents t) ≡ n) ys.now }
    ensures value { IfOk result (λ r. Same K.val n (element K.val n r) (Sum K.val n (element K.val n terms) (Product K.val n (term_in K.val n s.now) (element K.val n ys.now)))) }
    ensures normal { IfOk result (IsNormal K.val n) }
    ensures wide { IfErr result KeepsWideStep }
{
    let mut row = terms;
    for i in 0..ys.len() {
        let t = term_product(alloc, n, s, &ys[i])?;
        row = gathered(alloc, n, row, t)?;
    }
    Ok(row)
}

// The product of two terms.
fn term_product<K: Field>(
    alloc: Global,
    n: usize,
    s: &Term<K>,
    t: &Term<K>,
) -> Result<Term<K>, Stop>
    requires left { length (exponents s.now) ≡ n }
    requires right { length (exponents t.now) ≡ n }
    ensures value { IfOk result (λ r. Same K.val n (term_in K.val n r) (Product K.val n (term_in K.val n s.now) (term_in K.val n t.now))) }
    ensures fit { IfOk result (λ r. length (exponents r) ≡ n) }
    ensures wide { IfErr result KeepsWideStep }
{
    let exps = exponents_sum(alloc, s.exps.as_slice(), t.exps.as_slice())?;
    let coeff = s.coeff.mul(alloc, &t.coeff)?;
    Ok(Term { exps, coeff })
}
