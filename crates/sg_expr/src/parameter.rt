ghost use Rattle.std.specs.Prelude.{◌≡◌, ℤ, pos, ◌+ℤ◌, IfOk};
ghost use Rattle.sg_spec.specs.Parameter.{param_plus, substituted};
ghost use Rattle.sg_spec.specs.Value.{val};
ghost use Rattle.sg_expr.specs.Tree.{tree_of};

use crate::Expr;
use std::alloc::{AllocError, Global};

impl Expr {
    /// The tree with each parameter n replaced by n + `i`, so that its value at n is that of the tree at n + `i`. For 0 it
    /// is an equal tree. It fails only when out of memory.
    pub fn substitute(&self, alloc: Global, i: u32) -> Result<Expr, AllocError>
        ensures tree { IfOk result (λ e. tree_of e ≡ substituted i (tree_of self.now)) }
        ensures value { IfOk result (λ e. (n k : ℤ) → val (tree_of e) n k ≡ val (tree_of self.now) (n +ℤ pos i) k) }
    {
        let e = self.replaced(alloc, i)?;
        Ok(e)
    }

    fn replaced(&self, alloc: Global, i: u32) -> Result<Expr, AllocError>
        ensures { IfOk result (λ e. tree_of e ≡ substituted i (tree_of self.now)) }
    {
        match self {
            Expr::Num(n) => Ok(Expr::Num(*n)),
            Expr::Here => Ok(Expr::Here),
            Expr::Param => parameter_plus(alloc, i),
            Expr::Add(a, b) => {
                let left = Box::new(alloc, a.replaced(alloc, i)?)?;
                let right = Box::new(alloc, b.replaced(alloc, i)?)?;
                Ok(Expr::Add(left, right))
            }
            Expr::Neg(a) => {
                let inner = Box::new(alloc, a.replaced(alloc, i)?)?;
                Ok(Expr::Neg(inner))
            }
            Expr::Mul(a, b) => {
                let left = Box::new(alloc, a.replaced(alloc, i)?)?;
                let right = Box::new(alloc, b.replaced(alloc, i)?)?;
                Ok(Expr::Mul(left, right))
            }
            Expr::Div(a, b) => {
                let left = Box::new(alloc, a.replaced(alloc, i)?)?;
                let right = Box::new(alloc, b.replaced(alloc, i)?)?;
                Ok(Expr::Div(left, right))
            }
            Expr::Pow(a, e) => {
                let inner = Box::new(alloc, a.replaced(alloc, i)?)?;
                Ok(Expr::Pow(inner, *e))
            }
            Expr::Sum { from, body } => {
                let body = Box::new(alloc, body.replaced(alloc, i)?)?;
                Ok(Expr::Sum { from: *from, body })
            }
            Expr::Prod { from, body } => {
                let body = Box::new(alloc, body.replaced(alloc, i)?)?;
                Ok(Expr::Prod { from: *from, body })
            }
        }
    }
}

/// The parameter plus `i`; for 0 the parameter itself.
fn parameter_plus(alloc: Global, i: u32) -> Result<Expr, AllocError>
    ensures { IfOk result (λ e. tree_of e ≡ param_plus i) }
{
    if i == 0 {
        return Ok(Expr::Param);
    }
    let left = Box::new(alloc, Expr::Param)?;
    let right = Box::new(alloc, Expr::Num(i128::from(i)))?;
    Ok(Expr::Add(left, right))
}
