ghost use Rattle.std.specs.Prelude.{◌≡◌, ℕ, length, map, neg_ℤ, [], IfOk, IfErr, IfSome, IfNone, IsTrue, ◌↔◌};
ghost use Rattle.sg_algebra.proofs.Value.{Value, zero_value, inv_value};
ghost use Rattle.sg_algebra.proofs.ValueField.{ValueF};
ghost use Rattle.sg_num.specs.Stopped.{KeepsWideStep};
ghost use Rattle.sg_tower_theory.proofs.Products.{Exponents, listed, LaurentsR, coefficient};
ghost use Rattle.sg_laurent.specs.Elements.{exponents, Same, Sum, Difference, Product, element, term_in, zero_in, constant_in, product_in, IsNormal, IsInverseTerm};

use crate::exponents::{are_same, are_zero, exponents_negated, exponents_of_one};
use crate::products::{product, with_products};
use crate::terms::{Term, added, gathered};
use sg_num::{Field, Row, Stop};
use std::alloc::Global;
use std::marker::Model;

/// A Laurent polynomial in some number of products. Each call is told in how many: as an element in another number of products it
/// stands for 0.
#[derive(Drop)]
pub struct Laurent<K: Field> {
    products: usize,
    terms: Row<Term<K>>,
}

impl<K: Field> Model for Laurent<K> {
    ghost use Rattle.std.specs.Prelude.{List};
    ghost use Rattle.sg_laurent.specs.declared.terms.Term.{Term};

    ghost Value = { List (Term K) };

    ghost use Rattle.sg_laurent.specs.Elements.{IsNormal};

    ghost view = { λ e. e.terms };

    ghost invariant = { λ e. IsNormal K.val e.products e.terms };
}

impl<K: Field> Laurent<K> {
    /// 0.
    pub fn zero(alloc: Global, n: usize) -> Laurent<K>
        ensures { result ≡ [] }
    {
        Laurent {
            products: n,
            terms: Row::new(alloc),
        }
    }

    /// An element of the field.
    pub fn constant(alloc: Global, n: usize, c: K) -> Result<Laurent<K>, Stop>
        ensures value { IfOk result (λ r. Same K.val n (element K.val n r) (constant_in K.val n (K.val c))) }
        ensures wide { IfErr result KeepsWideStep }
    {
        let t = constant_term(alloc, n, c)?;
        let terms = gathered(alloc, n, Row::new(alloc), t)?;
        Ok(Laurent { products: n, terms })
    }

    /// The product `i`, counted from 0.
    pub fn product(alloc: Global, n: usize, i: usize) -> Result<Laurent<K>, Stop>
        ensures value { IfOk result (λ r. Same K.val n (element K.val n r) (product_in K.val n i)) }
        ensures wide { IfErr result KeepsWideStep }
    {
        let exps = exponents_of_one(alloc, n, i)?;
        let coeff = K::one(alloc)?;
        let terms = gathered(alloc, n, Row::new(alloc), Term { exps, coeff })?;
        Ok(Laurent { products: n, terms })
    }

    /// The terms in descending order, where the exponents of the last product are compared first.
    pub fn terms(&self, n: usize) -> &[Term<K>]
        ensures value { Same K.val n (element K.val n result.now) (element K.val n self.now) }
        ensures normal { IsNormal K.val n result.now }
    {
        let terms = self.terms.as_slice();
        if self.products == n {
            return terms;
        }
        &terms[..0]
    }

    /// The sum of the element and one term.
    pub fn with_term(self, alloc: Global, n: usize, t: Term<K>) -> Result<Laurent<K>, Stop>
        requires { length (exponents t) ≡ n }
        ensures value { IfOk result (λ r. Same K.val n (element K.val n r) (Sum K.val n (element K.val n self) (term_in K.val n t))) }
        ensures wide { IfErr result KeepsWideStep }
    {
        let terms = gathered(alloc, n, self.into_terms(alloc, n), t)?;
        Ok(Laurent { products: n, terms })
    }

    // Its terms.
    fn into_terms(self, alloc: Global, n: usize) -> Row<Term<K>>
        ensures value { Same K.val n (element K.val n result) (element K.val n self) }
        ensures normal { IsNormal K.val n result }
    {
        let Laurent { products, terms } = self;
        if products == n {
            return terms;
        }
        Row::new(alloc)
    }

    /// An equal element.
    pub fn copy(&self, alloc: Global, n: usize) -> Result<Laurent<K>, Stop>
        ensures value { IfOk result (λ r. Same K.val n (element K.val n r) (element K.val n self.now)) }
        ensures wide { IfErr result KeepsWideStep }
    {
        let terms = added(alloc, n, Row::new(alloc), self.terms(n))?;
        Ok(Laurent { products: n, terms })
    }

    /// The sum.
    pub fn add(&self, alloc: Global, n: usize, other: &Laurent<K>) -> Result<Laurent<K>, Stop>
        ensures value { IfOk result (λ r. Same K.val n (element K.val n r) (Sum K.val n (element K.val n self.now) (element K.val n other.now))) }
        ensures wide { IfErr result KeepsWideStep }
    {
        let own = added(alloc, n, Row::new(alloc), self.terms(n))?;
        let terms = added(alloc, n, own, other.terms(n))?;
        Ok(Laurent { products: n, terms })
    }

    /// The difference.
    pub fn sub(&self, alloc: Global, n: usize, other: &Laurent<K>) -> Result<Laurent<K>, Stop>
        ensures value { IfOk result (λ r. Same K.val n (element K.val n r) (Difference K.val n (element K.val n self.now) (element K.val n other.now))) }
        ensures wide { IfErr result KeepsWideStep }
    {
        let own = added(alloc, n, Row::new(alloc), self.terms(n))?;
        let one = K::one(alloc)?;
        let zero = K::zero(alloc)?;
        let minus = zero.sub(alloc, &one)?;
        let t = constant_term(alloc, n, minus)?;
        let terms = with_products(alloc, n, own, &t, other.terms(n))?;
        Ok(Laurent { products: n, terms })
    }

    /// The product of two elements.
    pub fn mul(&self, alloc: Global, n: usize, other: &Laurent<K>) -> Result<Laurent<K>, Stop>
        ensures value { IfOk result (λ r. Same K.val n (element K.val n r) (Product K.val n (element K.val n self.now) (element K.val n other.now))) }
        ensures wide { IfErr result KeepsWideStep }
    {
        let terms = product(alloc, n, self.terms(n), other.terms(n))?;
        Ok(Laurent { products: n, terms })
    }

    /// The element times an element of the field.
    pub fn scale(&self, alloc: Global, n: usize, c: &K) -> Result<Laurent<K>, Stop>
        ensures value { IfOk result (λ r. Same K.val n (element K.val n r) (Product K.val n (constant_in K.val n (K.val c.now)) (element K.val n self.now))) }
        ensures wide { IfErr result KeepsWideStep }
    {
        let copy = c.copy(alloc)?;
        let t = constant_term(alloc, n, copy)?;
        let terms = with_products(alloc, n, Row::new(alloc), &t, self.terms(n))?;
        Ok(Laurent { products: n, terms })
    }

    /// Whether it is 0.
    pub fn is_zero(&self, n: usize) -> bool
        ensures { IsTrue result ↔ Same K.val n (element K.val n self.now) (zero_in K.val n) }
    {
        self.terms(n).is_empty()
    }

    /// Whether the elements are equal.
    pub fn same(&self, alloc: Global, n: usize, other: &Laurent<K>) -> Result<bool, Stop>
        ensures value { IfOk result (λ r. IsTrue r ↔ Same K.val n (element K.val n other.now) (element K.val n self.now)) }
        ensures wide { IfErr result KeepsWideStep }
    {
        let difference = self.sub(alloc, n, other)?;
        Ok(difference.is_zero(n))
    }

    /// The inverse of an element that is one term; None exactly where it isn't.
    pub fn inverse(&self, alloc: Global, n: usize) -> Result<Option<Laurent<K>>, Stop>
        ensures some { IfOk result (λ o. IfSome o (λ r. IsInverseTerm K.val n (element K.val n self.now) (element K.val n r))) }
        ensures none { IfOk result (λ o. IfNone o ((y : (LaurentsR (ValueF K.vars) n).A) → IsInverseTerm K.val n (element K.val n self.now) y → ⊥)) }
        ensures wide { IfErr result KeepsWideStep }
    {
        let own = self.terms(n);
        if own.len() != 1 {
            return Ok(None);
        }
        let first = &own[0];
        let t = inverse_term(alloc, n, first)?;
        let terms = gathered(alloc, n, Row::new(alloc), t)?;
        Ok(Some(Laurent { products: n, terms }))
    }

    /// The element of the field that it is; None exactly where it is none.
    pub fn constant_of(&self, alloc: Global, n: usize) -> Result<Option<K>, Stop>
        ensures some { IfOk result (λ o. IfSome o (λ c. Same K.val n (element K.val n self.now) (constant_in K.val n (K.val c)))) }
        ensures none { IfOk result (λ o. IfNone o ((c : Value K.vars) → ¬ Same K.val n (element K.val n self.now) (constant_in K.val n c))) }
        ensures wide { IfErr result KeepsWideStep }
    {
        let own = self.terms(n);
        if own.is_empty() {
            let zero = K::zero(alloc)?;
            return Ok(Some(zero));
        }
        if own.len() > 1 {
            return Ok(None);
        }
        let t = &own[0];
        if !are_zero(t.exps.as_slice()) {
            return Ok(None);
        }
        let c = t.coeff.copy(alloc)?;
        Ok(Some(c))
    }

    /// The coefficient at these exponents, one for each product.
    pub fn coefficient(&self, alloc: Global, n: usize, exps: &[i128]) -> Result<K, Stop>
        ensures value { IfOk result (λ c. (e : Exponents n) → exps.now ≡ listed n e → K.val c ≡ coefficient (ValueF K.vars) n e (element K.val n self.now)) }
        ensures wide { IfErr result KeepsWideStep }
    {
        let c = coefficient_in(alloc, n, self.terms(n), exps)?;
        Ok(c)
    }
}

// The term without products.
fn constant_term<K: Field>(alloc: Global, n: usize, c: K) -> Result<Term<K>, Stop>
    ensures value { IfOk result (λ r. Same K.val n (term_in K.val n r) (constant_in K.val n (K.val c))) }
    ensures fit { IfOk result (λ r. length (exponents r) ≡ n) }
    ensures wide { IfErr result KeepsWideStep }
{
    let exps = exponents_of_one(alloc, n, n)?;
    Ok(Term { exps, coeff: c })
}

// The inverse of a term.
fn inverse_term<K: Field>(alloc: Global, n: usize, t: &Term<K>) -> Result<Term<K>, Stop>
    requires fit { length (exponents t.now) ≡ n }
    requires some { ¬ (K.val t.now.coeff ≡ zero_value) }
    ensures exponents { IfOk result (λ r. exponents r ≡ map neg_ℤ (exponents t.now)) }
    ensures value { IfOk result (λ r. K.val r.coeff ≡ inv_value (K.val t.now.coeff)) }
    ensures fit { IfOk result (λ r. length (exponents r) ≡ n) }
    ensures wide { IfErr result KeepsWideStep }
{
    let exps = exponents_negated(alloc, t.exps.as_slice())?;
    let one = K::one(alloc)?;
    let coeff = one.div(alloc, &t.coeff)?;
    Ok(Term { exps, coeff })
}

// The coefficient of the term with these exponents; 0 where there is none.
fn coefficient_in<K: Field>(
    alloc: Global,
    n: usize,
    terms: &[Term<K>],
    exps: &[i128],
) -> Result<K, Stop>
    requires { IsNormal K.val n terms.now }
    ensures value { IfOk result (λ c. (e : Exponents n) → exps.now ≡ listed n e → K.val c ≡ coefficient (ValueF K.vars) n e (element K.val n terms.now)) }
    ensures wide { IfErr result KeepsWideStep }
{
    for i in 0..terms.len() {
        let t = &terms[i];
        if are_same(t.exps.as_slice(), exps) {
            let c = t.coeff.copy(alloc)?;
            return Ok(c);
        }
    }
    let zero = K::zero(alloc)?;
    Ok(zero)
}
