ghost use Rattle.std.specs.Prelude.{◌≡◌, [], ◌∷◌, IfOk, IfErr, alloc_error, map};
ghost use Rattle.std.specs.List.{list_any};
ghost use Rattle.sg_spec.specs.Generators.{sums, prods, with_new, all_sums, all_prods, same_tree};
ghost use Rattle.sg_expr.specs.Tree.{tree_of};

use crate::Expr;
use sg_num::{Row, Stop};
use std::alloc::{AllocError, Global};

impl Expr {
    /// The distinct sums from left to right, each after those of its body, and of equal ones the first. It fails only
    /// when out of memory.
    pub fn sums_of(&self, alloc: Global) -> Result<Row<Expr>, Stop>
        ensures list { IfOk result (λ list. map tree_of list ≡ sums (tree_of self.now ∷ [])) }
        ensures memory { IfErr result (λ e. e ≡ Stop.Memory alloc_error) }
    {
        let list = self.join_sums(alloc, Row::new(alloc))?;
        Ok(list)
    }

    /// The distinct products, in the same order. It fails only when out of memory.
    pub fn prods_of(&self, alloc: Global) -> Result<Row<Expr>, Stop>
        ensures list { IfOk result (λ list. map tree_of list ≡ prods (tree_of self.now ∷ [])) }
        ensures memory { IfErr result (λ e. e ≡ Stop.Memory alloc_error) }
    {
        let list = self.join_prods(alloc, Row::new(alloc))?;
        Ok(list)
    }

    /// The known list, and after it the distinct sums that don't stand in it. It fails only when out of memory.
    #[tactic(auto, using(crate::proofs::Joining::joined_append))]
    pub fn join_sums(&self, alloc: Global, known: Row<Expr>) -> Result<Row<Expr>, AllocError>
        ensures { IfOk result (λ list. map tree_of list ≡ with_new (map tree_of known) (all_sums (tree_of self.now))) }
    {
        match self {
            Expr::Num(_) | Expr::Here | Expr::Param => Ok(known),
            Expr::Add(a, b) | Expr::Mul(a, b) | Expr::Div(a, b) => {
                let known = a.join_sums(alloc, known)?;
                b.join_sums(alloc, known)
            }
            Expr::Neg(a) | Expr::Pow(a, _) => a.join_sums(alloc, known),
            Expr::Sum { from: _, body } => {
                let known = body.join_sums(alloc, known)?;
                self.join(alloc, known)
            }
            Expr::Prod { from: _, body } => body.join_sums(alloc, known),
        }
    }

    /// The known list, and after it the distinct products that don't stand in it. It fails only when out of memory.
    #[tactic(auto, using(crate::proofs::Joining::joined_append))]
    pub fn join_prods(&self, alloc: Global, known: Row<Expr>) -> Result<Row<Expr>, AllocError>
        ensures { IfOk result (λ list. map tree_of list ≡ with_new (map tree_of known) (all_prods (tree_of self.now))) }
    {
        match self {
            Expr::Num(_) | Expr::Here | Expr::Param => Ok(known),
            Expr::Add(a, b) | Expr::Mul(a, b) | Expr::Div(a, b) => {
                let known = a.join_prods(alloc, known)?;
                b.join_prods(alloc, known)
            }
            Expr::Neg(a) | Expr::Pow(a, _) => a.join_prods(alloc, known),
            Expr::Sum { from: _, body } => body.join_prods(alloc, known),
            Expr::Prod { from: _, body } => {
                let known = body.join_prods(alloc, known)?;
                self.join(alloc, known)
            }
        }
    }

    /// The known list, and this expression after it where it doesn't stand in it.
    fn join(&self, alloc: Global, known: Row<Expr>) -> Result<Row<Expr>, AllocError>
        ensures { IfOk result (λ list. map tree_of list ≡ with_new (map tree_of known) (tree_of self.now ∷ [])) }
    {
        if self.stands_in(&known) {
            return Ok(known);
        }
        let mut list = known;
        list.push(self.copy(alloc)?)?;
        Ok(list)
    }

    fn stands_in(&self, list: &Row<Expr>) -> bool
        ensures { result ≡ list_any (λ e. same_tree (tree_of self.now) (tree_of e)) list.now }
    {
        list.as_slice().iter().any(|e| self.same(e))
    }
}
