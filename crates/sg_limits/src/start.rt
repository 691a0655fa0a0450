ghost use Rattle.std.specs.Prelude.{◌≡◌, map};
ghost use Rattle.std.specs.Int.{int_max};
ghost use Rattle.sg_spec.specs.Generators.{start, start_of};
ghost use Rattle.std.specs.Prelude.{pos, ◌-ℤ◌, ℤ};
ghost use Rattle.sg_expr.specs.Tree.{tree_of};

use sg_expr::Expr;

/// The greatest of `a` and of the lower limits less 1 over all sums and products of the expression, at any depth. From there
/// on no sum or product is over a range that runs down.
pub fn start_of(e: &Expr, a: i64) -> i64
    ensures { result ≡ start_of (tree_of e.now) a }
{
    match e {
        Expr::Num(_) | Expr::Here | Expr::Param => a,
        Expr::Neg(x) | Expr::Pow(x, _) => start_of(x, a),
        Expr::Add(x, y) | Expr::Mul(x, y) | Expr::Div(x, y) => start_of(y, start_of(x, a)),
        Expr::Sum { from, body } | Expr::Prod { from, body } => later(start_of(body, a), *from),
    }
}

/// The greatest of `a` and of the lower limits less 1 over all sums and products of all expressions.
pub fn start_of_all(items: &[Expr], a: i64) -> i64
    ensures { result ≡ start (map tree_of items.now) a }
{
    let mut start = a;
    for e in items {
        start = start_of(e, start);
    }
    start
}

/// The greater of `a` and the lower limit less 1.
fn later(a: i64, from: i64) -> i64
    ensures { result ≡ int_max a (from -ℤ pos 1) }
{
    if from > a { from - 1 } else { a }
}
