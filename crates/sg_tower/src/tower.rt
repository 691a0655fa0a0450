ghost use Rattle.std.specs.Prelude.{◌≡◌, ℕ, ◌+◌, ◌<◌, ◌≤◌, length, map, IfOk, IfErr, IfSome, IfNone, IsTrue, ◌↔◌};
ghost use Rattle.sg_algebra.proofs.Value.{Value};
ghost use Rattle.sg_num.specs.Stopped.{KeepsWideStep};
ghost use Rattle.sg_tower_theory.proofs.Formal.{IsIndependent};
ghost use Rattle.sg_tower.specs.Elements.{Reading, IsZero, IsOne, IsCopy, IsSum, IsDifference, IsProduct, IsMultiple, IsShifted, IsValue, IsConstant, AllSolve, IsComplete};
ghost use Rattle.sg_tower.specs.Terms.{IsLifted, IsGenerator, IsInverse, IsNoUnit, HasTerms};

use crate::flat::FlatTerm;
use sg_matrix::Solution;
use sg_num::{Field, Row, Stop};
use sg_ratfun::RatFun;
use std::alloc::Global;

/// A tower of sums and products over the constants K.
pub trait Tower: Drop {
    type K: Field;

    type Elem: Drop;

    /// The formal tower, and which of its elements an item stands for, where `v` says which value a constant has.
    ghost reading: { (d : ℕ) → (Self.K → Value d) → Self → Reading d Self.Elem };

    /// How many products it has: at most 20.
    fn products(&self) -> u32
        ensures count { result ≡ length (reading Self.K.vars Self.K.val self.now).formal.products }
        ensures few { result ≤ 20 };

    /// How many sums it has: at most 64.
    fn sums(&self) -> u32
        ensures count { result ≡ (reading Self.K.vars Self.K.val self.now).formal.sums }
        ensures few { result ≤ 64 };

    /// The element 0.
    fn zero(&self, alloc: Global) -> Result<Self::Elem, Stop>
        ensures value { IfOk result (IsZero (reading Self.K.vars Self.K.val self.now)) }
        ensures wide { IfErr result KeepsWideStep };

    /// The element 1.
    fn one(&self, alloc: Global) -> Result<Self::Elem, Stop>
        ensures value { IfOk result (IsOne (reading Self.K.vars Self.K.val self.now)) }
        ensures wide { IfErr result KeepsWideStep };

    /// A rational function as an element.
    fn lift(&self, alloc: Global, r: &RatFun<Self::K>) -> Result<Self::Elem, Stop>
        ensures value { IfOk result (IsLifted (reading Self.K.vars Self.K.val self.now) Self.K.val r.now) }
        ensures wide { IfErr result KeepsWideStep };

    /// The generator `i`: the products come first, then the sums.
    fn generator(&self, alloc: Global, i: u32) -> Result<Self::Elem, Stop>
        requires { i < length (reading Self.K.vars Self.K.val self.now).formal.products + (reading Self.K.vars Self.K.val self.now).formal.sums }
        ensures value { IfOk result (IsGenerator (reading Self.K.vars Self.K.val self.now) i) }
        ensures wide { IfErr result KeepsWideStep };

    /// An equal element.
    fn copy(&self, alloc: Global, e: &Self::Elem) -> Result<Self::Elem, Stop>
        ensures value { IfOk result (IsCopy (reading Self.K.vars Self.K.val self.now) e.now) }
        ensures wide { IfErr result KeepsWideStep };

    /// The element with k + 1 for k.
    fn shift(&self, alloc: Global, e: &Self::Elem) -> Result<Self::Elem, Stop>
        ensures value { IfOk result (IsShifted (reading Self.K.vars Self.K.val self.now) e.now) }
        ensures wide { IfErr result KeepsWideStep };

    /// The sum.
    fn add(&self, alloc: Global, x: &Self::Elem, y: &Self::Elem) -> Result<Self::Elem, Stop>
        ensures value { IfOk result (IsSum (reading Self.K.vars Self.K.val self.now) x.now y.now) }
        ensures wide { IfErr result KeepsWideStep };

    /// The difference.
    fn sub(&self, alloc: Global, x: &Self::Elem, y: &Self::Elem) -> Result<Self::Elem, Stop>
        ensures value { IfOk result (IsDifference (reading Self.K.vars Self.K.val self.now) x.now y.now) }
        ensures wide { IfErr result KeepsWideStep };

    /// The product.
    fn mul(&self, alloc: Global, x: &Self::Elem, y: &Self::Elem) -> Result<Self::Elem, Stop>
        ensures value { IfOk result (IsProduct (reading Self.K.vars Self.K.val self.now) x.now y.now) }
        ensures wide { IfErr result KeepsWideStep };

    /// The element times a constant.
    fn scale(&self, alloc: Global, c: &Self::K, e: &Self::Elem) -> Result<Self::Elem, Stop>
        ensures value { IfOk result (IsMultiple (reading Self.K.vars Self.K.val self.now) (Self.K.val c.now) e.now) }
        ensures wide { IfErr result KeepsWideStep };

    /// The inverse of an element that is one term without sums; None exactly where it isn't one.
    fn invert(&self, alloc: Global, e: &Self::Elem) -> Result<Option<Self::Elem>, Stop>
        ensures some { IfOk result (λ o. IfSome o (IsInverse (reading Self.K.vars Self.K.val self.now) e.now)) }
        ensures none { IfOk result (λ o. IfNone o (IsNoUnit (reading Self.K.vars Self.K.val self.now) e.now)) }
        ensures wide { IfErr result KeepsWideStep };

    /// Whether the element is 0.
    fn is_zero(&self, e: &Self::Elem) -> bool
        ensures { IsTrue result ↔ IsZero (reading Self.K.vars Self.K.val self.now) e.now };

    /// Whether the elements are equal.
    fn same(&self, alloc: Global, x: &Self::Elem, y: &Self::Elem) -> Result<bool, Stop>
        ensures value { IfOk result (λ r. IsTrue r ↔ IsCopy (reading Self.K.vars Self.K.val self.now) x.now y.now) }
        ensures wide { IfErr result KeepsWideStep };

    /// The constant that the element is; None exactly where it is none.
    fn constant_of(&self, alloc: Global, e: &Self::Elem) -> Result<Option<Self::K>, Stop>
        ensures some { IfOk result (λ o. IfSome o (λ c. IsConstant (reading Self.K.vars Self.K.val self.now) Self.K.val c e.now)) }
        ensures none { IfOk result (λ o. IfNone o ((c : Value Self.K.vars) → ¬ IsValue (reading Self.K.vars Self.K.val self.now) c e.now)) }
        ensures wide { IfErr result KeepsWideStep };

    /// The terms other than 0 in descending order: the exponents of the last sum are compared first, those of the first product
    /// last.
    fn flat(&self, alloc: Global, e: &Self::Elem) -> Result<Row<FlatTerm<Self::K>>, Stop>
        ensures value { IfOk result (HasTerms (reading Self.K.vars Self.K.val self.now) Self.K.val e.now) }
        ensures wide { IfErr result KeepsWideStep };

    /// All solutions of σ(g) - g = c₀ f₀ + c₁ f₁ + .. with constants c: each of the answered ones is one, and each is a
    /// combination of these.
    fn solve(
        &self,
        alloc: Global,
        fs: &Row<Self::Elem>,
    ) -> Result<Row<Solution<Self::K, Self::Elem>>, Stop>
        ensures sound { IfOk result (AllSolve (reading Self.K.vars Self.K.val self.now) Self.K.val fs.now) }
        ensures complete { IfOk result (IsComplete (reading Self.K.vars Self.K.val self.now) Self.K.val fs.now) }
        ensures wide { IfErr result KeepsWideStep };

    /// Each of its sums is new.
    ghost independent: { (s : Self) → IsIndependent (reading Self.K.vars Self.K.val s).formal };
}
