ghost use Rattle.std.specs.Prelude.{◌≡◌, ℕ, ◌≤◌, ◌<◌, IfOk, IfErr, IsTrue, ◌↔◌, [], ◌∷◌, length, map};
ghost use Rattle.sg_algebra.specs.Coefficients.{Each};
ghost use Rattle.sg_algebra.proofs.Value.{zero_value};
ghost use Rattle.sg_num.specs.Stopped.{KeepsWideStep};
ghost use Rattle.sg_tower.specs.Elements.{IsNewSum};
ghost use Rattle.sg_sums.specs.Polynomials.{ZeroFrom};

use crate::ending::ended;
use crate::partial::Partial;
use crate::poly1::Poly1;
use crate::polys::{added, coefficient, own, product, scaled, single, subtracted};
use crate::powers::{finished, lowered, shifted_poly, start};
use crate::terms::descending_terms;
use sg_matrix::Solution;
use sg_num::{Field, Row, Stop};
use sg_ratfun::RatFun;
use sg_tower::{FlatTerm, Tower};
use std::alloc::Global;

/// A tower with one more sum t, where t goes to t + beta (Karr 1981).
#[derive(Drop)]
pub struct SumExt<T: Tower> {
    below: T,
    beta: T::Elem,
    pub ghost few: { (T.reading T.K.vars T.K.val below).formal.sums < 64 },
    pub ghost is_new: { IsNewSum (T.reading T.K.vars T.K.val below) beta },
}

impl<T: Tower> SumExt<T> {
    /// The tower with one more sum, whose difference is no difference below.
    pub fn new(below: T, beta: T::Elem) -> SumExt<T>
        requires few { (T.reading T.K.vars T.K.val below).formal.sums < 64 }
        requires new { IsNewSum (T.reading T.K.vars T.K.val below) beta }
        ensures below { result.below ≡ below }
        ensures beta { result.beta ≡ beta }
    {
        SumExt { below, beta }
    }

    /// An element of the tower below, as an element of degree 0.
    pub fn raise(alloc: Global, e: T::Elem) -> Result<Poly1<T::Elem>, Stop>
        ensures value { IfOk result (λ r. r ≡ e ∷ []) }
        ensures wide { IfErr result KeepsWideStep }
    {
        let coeffs = single(alloc, e)?;
        Ok(Poly1::of(coeffs))
    }
}

// Whether all coefficients from `n` on are 0.
pub(crate) fn zero_from<T: Tower>(below: &T, p: &Row<T::Elem>, n: usize) -> bool
    ensures { IsTrue result ↔ ZeroFrom (T.reading T.K.vars T.K.val below.now) p.now n }
{
    for i in n..p.len() {
        if !below.is_zero(p.get(i)) {
            return false;
        }
    }
    true
}

impl<T: Tower> Tower for SumExt<T> {
    ghost use Rattle.sg_tower.specs.Elements.{raised};

    type K = T::K;

    type Elem = Poly1<T::Elem>;

    ghost reading = { λ d v s. raised (T.reading d v s.below) s.beta };

    fn products(&self) -> u32 {
        self.below.products()
    }

    fn sums(&self) -> u32 {
        self.below.sums() + 1
    }

    fn zero(&self, alloc: Global) -> Result<Poly1<T::Elem>, Stop> {
        Ok(Poly1::of(Row::new(alloc)))
    }

    fn one(&self, alloc: Global) -> Result<Poly1<T::Elem>, Stop> {
        let one = self.below.one(alloc)?;
        let mut coeffs = Row::new(alloc);
        coeffs.push(one)?;
        Ok(Poly1::of(coeffs))
    }

    fn lift(&self, alloc: Global, r: &RatFun<T::K>) -> Result<Poly1<T::Elem>, Stop> {
        let low = self.below.lift(alloc, r)?;
        let coeffs = single(alloc, low)?;
        Ok(Poly1::of(coeffs))
    }

    fn generator(&self, alloc: Global, i: u32) -> Result<Poly1<T::Elem>, Stop> {
        if i < self.below.products() + self.below.sums() {
            let low = self.below.generator(alloc, i)?;
            let coeffs = single(alloc, low)?;
            Ok(Poly1::of(coeffs))
        } else {
            let coeffs = own(alloc, &self.below)?;
            Ok(Poly1::of(coeffs))
        }
    }

    fn copy(&self, alloc: Global, e: &Poly1<T::Elem>) -> Result<Poly1<T::Elem>, Stop> {
        let none = Row::new(alloc);
        let r = added(alloc, &self.below, &none, e.row())?;
        Ok(Poly1::of(r))
    }

    fn shift(&self, alloc: Global, e: &Poly1<T::Elem>) -> Result<Poly1<T::Elem>, Stop> {
        let r = shifted_poly(alloc, &self.below, &self.beta, e.row())?;
        Ok(Poly1::of(r))
    }

    fn add(
        &self,
        alloc: Global,
        x: &Poly1<T::Elem>,
        y: &Poly1<T::Elem>,
    ) -> Result<Poly1<T::Elem>, Stop> {
        let r = added(alloc, &self.below, x.row(), y.row())?;
        Ok(Poly1::of(r))
    }

    fn sub(
        &self,
        alloc: Global,
        x: &Poly1<T::Elem>,
        y: &Poly1<T::Elem>,
    ) -> Result<Poly1<T::Elem>, Stop> {
        let r = subtracted(alloc, &self.below, x.row(), y.row())?;
        Ok(Poly1::of(r))
    }

    fn mul(
        &self,
        alloc: Global,
        x: &Poly1<T::Elem>,
        y: &Poly1<T::Elem>,
    ) -> Result<Poly1<T::Elem>, Stop> {
        let r = product(alloc, &self.below, x.row(), y.row())?;
        Ok(Poly1::of(r))
    }

    fn scale(&self, alloc: Global, c: &T::K, e: &Poly1<T::Elem>) -> Result<Poly1<T::Elem>, Stop> {
        let r = scaled(alloc, &self.below, c, e.row())?;
        Ok(Poly1::of(r))
    }

    fn invert(&self, alloc: Global, e: &Poly1<T::Elem>) -> Result<Option<Poly1<T::Elem>>, Stop> {
        if !zero_from(&self.below, e.row(), 1) {
            return Ok(None);
        }
        let lowest = coefficient(alloc, &self.below, e.row(), 0)?;
        match self.below.invert(alloc, &lowest)? {
            None => Ok(None),
            Some(low) => {
                let coeffs = single(alloc, low)?;
                Ok(Some(Poly1::of(coeffs)))
            }
        }
    }

    fn flat(&self, alloc: Global, e: &Poly1<T::Elem>) -> Result<Row<FlatTerm<T::K>>, Stop> {
        let terms = descending_terms(alloc, &self.below, &self.beta, e.row())?;
        Ok(terms)
    }

    fn is_zero(&self, e: &Poly1<T::Elem>) -> bool {
        zero_from(&self.below, e.row(), 0)
    }

    fn same(&self, alloc: Global, x: &Poly1<T::Elem>, y: &Poly1<T::Elem>) -> Result<bool, Stop> {
        let difference = self.sub(alloc, x, y)?;
        Ok(self.is_zero(&difference))
    }

    fn constant_of(&self, alloc: Global, e: &Poly1<T::Elem>) -> Result<Option<T::K>, Stop> {
        if !zero_from(&self.below, e.row(), 1) {
            return Ok(None);
        }
        let lowest = coefficient(alloc, &self.below, e.row(), 0)?;
        let c = self.below.constant_of(alloc, &lowest)?;
        Ok(c)
    }

    /// One power of t after the other, from the highest (Karr 1981): the coefficients at a power solve a problem of the same
    /// kind below, and its solutions, times the power, leave a problem without this power.
    fn solve(
        &self,
        alloc: Global,
        fs: &Row<Poly1<T::Elem>>,
    ) -> Result<Row<Solution<T::K, Poly1<T::Elem>>>, Stop> {
        let degree = greatest_length(&self.below, fs);
        let first = start(alloc, &self.below, &self.beta, fs)?;
        let mut rows = first;
        for i in 0..degree {
            rows = lowered(alloc, &self.below, &self.beta, fs, degree - i, &rows)?;
        }
        let last = ended(alloc, &self.below, &self.beta, fs, rows)?;
        let answer = finished(alloc, last)?;
        Ok(answer)
    }

    ghost independent = { λ s. (T.independent s.below, s.is_new) };
}

// How many coefficients of each polynomial may be other than 0: one more than the greatest degree.
fn greatest_length<T: Tower>(below: &T, fs: &Row<Poly1<T::Elem>>) -> usize
    ensures { Each (λ f. ZeroFrom (T.reading T.K.vars T.K.val below.now) f result) fs.now }
{
    let mut most = 0;
    for i in 0..fs.len() {
        let own = length_without_zeros(below, fs.get(i).row());
        most = own.max(most);
    }
    most
}

// The least place from which on all coefficients are 0.
fn length_without_zeros<T: Tower>(below: &T, p: &Row<T::Elem>) -> usize
    ensures { ZeroFrom (T.reading T.K.vars T.K.val below.now) p.now result }
{
    for n in 0..p.len() {
        if zero_from(below, p, n) {
            return n;
        }
    }
    p.len()
}
