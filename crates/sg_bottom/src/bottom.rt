ghost use Rattle.std.specs.Prelude.{◌≡◌, ◌≤◌, [], length, map};
ghost use Rattle.sg_tower_theory.proofs.Formal.{IndependentFactors};
ghost use Rattle.sg_ratfun.specs.Fractions.{ratio};
ghost use Rattle.sg_bottom.specs.Factors.{AreNonzero};

use crate::functions::antidifferences;
use sg_laurent::Laurent;
use sg_matrix::Solution;
use sg_num::{Field, Row, Stop};
use sg_products::{descending_terms, shifted, solved};
use sg_ratfun::RatFun;
use sg_tower::{FlatTerm, Tower};
use std::alloc::Global;

/// The tower of some products over the rational functions of k, where a product goes to its factor times itself as k goes to k + 1
/// (Karr 1981).
#[derive(Drop)]
pub struct Bottom<F: Field> {
    alphas: Row<RatFun<F>>,
    pub ghost few: { length alphas ≤ 20 },
    pub ghost nonzero: { AreNonzero F.val alphas },
    pub ghost free: { IndependentFactors (map (ratio F.val) alphas) },
}

impl<F: Field> Bottom<F> {
    /// The tower of the products with these factors: at most twenty, none is 0, and no product of powers of them but the trivial
    /// one is r(k+1)/r(k) for a rational function r.
    pub fn new(alphas: Row<RatFun<F>>) -> Bottom<F>
        requires few { length alphas ≤ 20 }
        requires nonzero { AreNonzero F.val alphas }
        requires free { IndependentFactors (map (ratio F.val) alphas) }
        ensures { result.alphas ≡ alphas }
    {
        Bottom { alphas }
    }

    /// The tower without products: its elements are the rational functions of k.
    pub fn none(alloc: Global) -> Bottom<F>
        ensures { result.alphas ≡ [] }
    {
        Bottom {
            alphas: Row::new(alloc),
        }
    }
}

impl<F: Field> Tower for Bottom<F> {
    ghost use Rattle.sg_products.specs.Readings.{laurents};

    type K = F;

    type Elem = Laurent<RatFun<F>>;

    ghost reading = { λ d v s. laurents v s.alphas };

    fn products(&self) -> u32 {
        self.alphas.len() as u32
    }

    fn sums(&self) -> u32 {
        0
    }

    fn zero(&self, alloc: Global) -> Result<Laurent<RatFun<F>>, Stop> {
        let r = Laurent::zero(alloc, self.alphas.len());
        Ok(r)
    }

    fn one(&self, alloc: Global) -> Result<Laurent<RatFun<F>>, Stop> {
        let one: RatFun<F> = Field::one(alloc)?;
        let r = Laurent::constant(alloc, self.alphas.len(), one)?;
        Ok(r)
    }

    fn lift(&self, alloc: Global, r: &RatFun<F>) -> Result<Laurent<RatFun<F>>, Stop> {
        let copy = r.copy(alloc)?;
        let e = Laurent::constant(alloc, self.alphas.len(), copy)?;
        Ok(e)
    }

    fn generator(&self, alloc: Global, i: u32) -> Result<Laurent<RatFun<F>>, Stop> {
        let r = Laurent::product(alloc, self.alphas.len(), i as usize)?;
        Ok(r)
    }

    fn copy(&self, alloc: Global, e: &Laurent<RatFun<F>>) -> Result<Laurent<RatFun<F>>, Stop> {
        let r = e.copy(alloc, self.alphas.len())?;
        Ok(r)
    }

    fn shift(&self, alloc: Global, e: &Laurent<RatFun<F>>) -> Result<Laurent<RatFun<F>>, Stop> {
        let r = shifted(alloc, self.alphas.as_slice(), e)?;
        Ok(r)
    }

    fn add(
        &self,
        alloc: Global,
        x: &Laurent<RatFun<F>>,
        y: &Laurent<RatFun<F>>,
    ) -> Result<Laurent<RatFun<F>>, Stop> {
        let r = x.add(alloc, self.alphas.len(), y)?;
        Ok(r)
    }

    fn sub(
        &self,
        alloc: Global,
        x: &Laurent<RatFun<F>>,
        y: &Laurent<RatFun<F>>,
    ) -> Result<Laurent<RatFun<F>>, Stop> {
        let r = x.sub(alloc, self.alphas.len(), y)?;
        Ok(r)
    }

    fn mul(
        &self,
        alloc: Global,
        x: &Laurent<RatFun<F>>,
        y: &Laurent<RatFun<F>>,
    ) -> Result<Laurent<RatFun<F>>, Stop> {
        let r = x.mul(alloc, self.alphas.len(), y)?;
        Ok(r)
    }

    fn scale(
        &self,
        alloc: Global,
        c: &F,
        e: &Laurent<RatFun<F>>,
    ) -> Result<Laurent<RatFun<F>>, Stop> {
        let copy = c.copy(alloc)?;
        let k = RatFun::from_constant(alloc, copy)?;
        let r = e.scale(alloc, self.alphas.len(), &k)?;
        Ok(r)
    }

    fn invert(
        &self,
        alloc: Global,
        e: &Laurent<RatFun<F>>,
    ) -> Result<Option<Laurent<RatFun<F>>>, Stop> {
        let r = e.inverse(alloc, self.alphas.len())?;
        Ok(r)
    }

    fn is_zero(&self, e: &Laurent<RatFun<F>>) -> bool {
        e.is_zero(self.alphas.len())
    }

    fn same(
        &self,
        alloc: Global,
        x: &Laurent<RatFun<F>>,
        y: &Laurent<RatFun<F>>,
    ) -> Result<bool, Stop> {
        let r = x.same(alloc, self.alphas.len(), y)?;
        Ok(r)
    }

    fn constant_of(&self, alloc: Global, e: &Laurent<RatFun<F>>) -> Result<Option<F>, Stop> {
        let function = e.constant_of(alloc, self.alphas.len())?;
        match function {
            None => Ok(None),
            Some(r) => {
                let c = r.constant(alloc)?;
                Ok(c)
            }
        }
    }

    fn flat(&self, alloc: Global, e: &Laurent<RatFun<F>>) -> Result<Row<FlatTerm<F>>, Stop> {
        let terms = descending_terms(alloc, self.alphas.as_slice(), e)?;
        Ok(terms)
    }

    /// Exponents by exponents (Karr 1981); without products one first-order equation (Abramov 1989).
    fn solve(
        &self,
        alloc: Global,
        fs: &Row<Laurent<RatFun<F>>>,
    ) -> Result<Row<Solution<F, Laurent<RatFun<F>>>>, Stop> {
        if self.alphas.is_empty() {
            let rows = antidifferences(alloc, fs)?;
            return Ok(rows);
        }
        let rows = solved(alloc, self.alphas.as_slice(), fs)?;
        Ok(rows)
    }

    ghost independent = { λ s. s.free };
}
