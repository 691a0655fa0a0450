ghost use Rattle.std.specs.Prelude.{◌≡◌, ◌≤◌};
ghost use Rattle.sg_expr.specs.Tree.{tree_of};
ghost use Rattle.sg_value.specs.Left.{left_operand, left_depth, left_part};

use sg_expr::Expr;

/// How many left operands there are one below the other, as far as it is counted.
pub fn left_depth(e: &Expr) -> usize
    ensures { result ≤ left_depth (tree_of e.now) }
{
    let mut part = e;
    let mut count: usize = 0;
    while let Expr::Add(a, _) | Expr::Mul(a, _) | Expr::Div(a, _) = part {
        count = count.saturating_add(1);
        part = a;
    }
    count
}

/// The part that many left operands below.
pub fn left_part(e: &Expr, count: usize) -> &Expr
    ensures { tree_of result.now ≡ left_part (tree_of e.now) count }
{
    let mut part = e;
    for _i in 0..count {
        part = left_operand(part);
    }
    part
}

fn left_operand(e: &Expr) -> &Expr
    ensures { tree_of result.now ≡ left_operand (tree_of e.now) }
{
    match e {
        Expr::Add(a, _) | Expr::Mul(a, _) | Expr::Div(a, _) => a,
        Expr::Num(_) | Expr::Here | Expr::Param => e,
        Expr::Neg(_) | Expr::Pow(_, _) | Expr::Sum { .. } | Expr::Prod { .. } => e,
    }
}
