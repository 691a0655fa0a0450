ghost use Rattle.std.specs.Prelude.{◌≡◌, ◌↔◌, IsTrue, IfOk};
ghost use Rattle.sg_spec.specs.Generators.{same_tree};
ghost use Rattle.sg_expr.specs.Tree.{tree_of};

use std::alloc::{AllocError, Global};

/// An expression in the variable of the nearest scope.
#[derive(Debug, Drop)]
pub enum Expr {
    /// A numeral, at least 0.
    Num(i128),
    /// The variable of the nearest scope.
    Here,
    /// The parameter.
    Param,
    Add(Box<Expr>, Box<Expr>),
    Neg(Box<Expr>),
    Mul(Box<Expr>, Box<Expr>),
    Div(Box<Expr>, Box<Expr>),
    Pow(Box<Expr>, u128),
    /// The sum of the body, which is a scope of its own, from a lower limit to the variable of the scope outside.
    Sum { from: i64, body: Box<Expr> },
    /// The product of the body, in the same way.
    Prod { from: i64, body: Box<Expr> },
}

impl Expr {
    /// Whether the trees are equal.
    pub fn same(&self, other: &Expr) -> bool
        ensures equal { IsTrue result ↔ (tree_of self.now ≡ tree_of other.now) }
        ensures decided { result ≡ same_tree (tree_of self.now) (tree_of other.now) }
    {
        match (self, other) {
            (Expr::Num(a), Expr::Num(b)) => a == b,
            (Expr::Here, Expr::Here) => true,
            (Expr::Param, Expr::Param) => true,
            (Expr::Add(a, b), Expr::Add(c, d)) => a.same(c) && b.same(d),
            (Expr::Neg(a), Expr::Neg(b)) => a.same(b),
            (Expr::Mul(a, b), Expr::Mul(c, d)) => a.same(c) && b.same(d),
            (Expr::Div(a, b), Expr::Div(c, d)) => a.same(c) && b.same(d),
            (Expr::Pow(a, e), Expr::Pow(b, f)) => e == f && a.same(b),
            (Expr::Sum { from: p, body: a }, Expr::Sum { from: q, body: b }) => p == q && a.same(b),
            (Expr::Prod { from: p, body: a }, Expr::Prod { from: q, body: b }) => p == q
                && a.same(b),
            _ => false,
        }
    }

    /// An equal tree. It fails only when out of memory.
    pub fn copy(&self, alloc: Global) -> Result<Expr, AllocError>
        ensures { IfOk result (λ e. tree_of e ≡ tree_of self.now) }
    {
        match self {
            Expr::Num(n) => Ok(Expr::Num(*n)),
            Expr::Here => Ok(Expr::Here),
            Expr::Param => Ok(Expr::Param),
            Expr::Add(a, b) => {
                let left = Box::new(alloc, a.copy(alloc)?)?;
                let right = Box::new(alloc, b.copy(alloc)?)?;
                Ok(Expr::Add(left, right))
            }
            Expr::Neg(a) => {
                let inner = Box::new(alloc, a.copy(alloc)?)?;
                Ok(Expr::Neg(inner))
            }
            Expr::Mul(a, b) => {
                let left = Box::new(alloc, a.copy(alloc)?)?;
                let right = Box::new(alloc, b.copy(alloc)?)?;
                Ok(Expr::Mul(left, right))
            }
            Expr::Div(a, b) => {
                let left = Box::new(alloc, a.copy(alloc)?)?;
                let right = Box::new(alloc, b.copy(alloc)?)?;
                Ok(Expr::Div(left, right))
            }
            Expr::Pow(a, e) => {
                let inner = Box::new(alloc, a.copy(alloc)?)?;
                Ok(Expr::Pow(inner, *e))
            }
            Expr::Sum { from, body } => {
                let body = Box::new(alloc, body.copy(alloc)?)?;
                Ok(Expr::Sum { from: *from, body })
            }
            Expr::Prod { from, body } => {
                let body = Box::new(alloc, body.copy(alloc)?)?;
                Ok(Expr::Prod { from: *from, body })
            }
        }
    }
}
