ghost use Rattle.std.specs.Prelude.{◌≡◌, length, map, reverse, IfOk, IfErr};
ghost use Rattle.sg_num.specs.Stopped.{KeepsWideStep};
ghost use Rattle.sg_expr.specs.Tree.{tree_of};
ghost use Rattle.sg_spec.specs.Canonical.{IsCanonicalOver};
ghost use Rattle.sg_build.specs.Letters.{letter};
ghost use Rattle.sg_build.specs.Expressions.{IsExpression, ExpressesOver, IsBuiltAlike, IsOverAlike, IsPrintedAlike};

use crate::letters::Letters;
use crate::parts::push_parts;
use sg_canonical::element_tree;
use sg_expr::Expr;
use sg_num::{Row, Stop};
use sg_tower::Tower;
use std::alloc::{AllocError, Global};

/// The canonical expression of an element, over the expressions of the products and sums of the tower: its terms in descending
/// order, those of one power of a sum together, each coefficient as one quotient of polynomials with whole coefficients. It has
/// the values of the element wherever the products and sums have those of their expressions. The error is out of memory, or a
/// step that doesn't fit 128 bits.
pub fn express<K: Letters, T: Tower<K = K>>(
    alloc: Global,
    tower: &T,
    prods: &[Expr],
    sums: &[Expr],
    e: &T::Elem,
) -> Result<Expr, Stop>
    requires one_each { length prods.now ≡ length (T.reading K.vars K.val tower.now).formal.products }
    requires one_sum_each { length sums.now ≡ (T.reading K.vars K.val tower.now).formal.sums }
    ensures tree { IfOk result (λ t. IsExpression (K.form K.vars) (T.reading K.vars K.val tower.now).formal ((T.reading K.vars K.val tower.now).of e.now)
        (map tree_of prods.now) (map tree_of sums.now) (tree_of t)) }
    ensures value { IfOk result (λ t. ExpressesOver (letter K.vars) (T.reading K.vars K.val tower.now).formal ((T.reading K.vars K.val tower.now).of e.now)
        (map tree_of prods.now) (map tree_of sums.now) (tree_of t)) }
    ensures canonical { IfOk result (λ t. IsCanonicalOver (map tree_of prods.now) (map tree_of sums.now) (tree_of t)) }
    ensures built { IfOk result (λ t. IsBuiltAlike K.vars (map tree_of prods.now) (map tree_of sums.now) (tree_of t)) }
    ensures over { IfOk result (λ t. IsOverAlike K.vars (map tree_of prods.now) (map tree_of sums.now) (tree_of t)) }
    ensures form { IfOk result (λ t. IsPrintedAlike K.vars (map tree_of prods.now) (map tree_of sums.now) (tree_of t)) }
    ensures wide { IfErr result KeepsWideStep }
{
    let last_first = reversed(alloc, sums)?;
    let t = written(alloc, tower, prods, last_first.as_slice(), e)?;
    Ok(t)
}

// The canonical tree over the products and over the sums, the last first.
fn written<K: Letters, T: Tower<K = K>>(
    alloc: Global,
    tower: &T,
    prods: &[Expr],
    sums: &[Expr],
    e: &T::Elem,
) -> Result<Expr, Stop>
    requires one_each { length prods.now ≡ length (T.reading K.vars K.val tower.now).formal.products }
    requires one_sum_each { length sums.now ≡ (T.reading K.vars K.val tower.now).formal.sums }
    ensures tree { IfOk result (λ t. IsExpression (K.form K.vars) (T.reading K.vars K.val tower.now).formal ((T.reading K.vars K.val tower.now).of e.now)
        (map tree_of prods.now) (reverse (map tree_of sums.now)) (tree_of t)) }
    ensures wide { IfErr result KeepsWideStep }
{
    let _count = tower.sums();
    let terms = tower.flat(alloc, e)?;
    let mut parts = Row::new(alloc);
    push_parts(alloc, prods.len(), terms.as_slice(), &mut parts)?;
    let t = element_tree(alloc, prods, sums, parts.as_slice())?;
    Ok(t)
}

// The expressions, the last first.
fn reversed(alloc: Global, list: &[Expr]) -> Result<Row<Expr>, AllocError>
    ensures { IfOk result (λ r. map tree_of r ≡ reverse (map tree_of list.now)) }
{
    let mut row = Row::new(alloc);
    for t in list {
        row.push(t.copy(alloc)?)?;
    }
    row.reverse();
    Ok(row)
}
