ghost use Rattle.std.specs.Prelude.{◌≡◌, ◌+◌, min};
ghost use Rattle.sg_spec.specs.Limits.{nodes, keeps_nodes};
ghost use Rattle.sg_expr.specs.Tree.{tree_of};

use sg_expr::Expr;

const MOST_NODES: u32 = 2000;

/// Whether it has at most 2,000 nodes.
pub fn keeps_nodes(e: &Expr) -> bool
    ensures { result ≡ keeps_nodes (tree_of e.now) }
{
    node_count(e) <= MOST_NODES
}

/// How many nodes it has; more than the limit count as one more.
fn node_count(e: &Expr) -> u32
    ensures { result ≡ min (nodes (tree_of e.now)) 2001 }
{
    match e {
        Expr::Num(_) | Expr::Here | Expr::Param => 1,
        Expr::Neg(a) | Expr::Pow(a, _) => one_more(node_count(a), 0),
        Expr::Add(a, b) | Expr::Mul(a, b) | Expr::Div(a, b) => one_more(
            node_count(a),
            node_count(b),
        ),
        Expr::Sum { from: _, body } | Expr::Prod { from: _, body } => one_more(node_count(body), 0),
    }
}

/// One more than both together; more than the limit count as one more.
fn one_more(left: u32, right: u32) -> u32
    ensures { result ≡ min (1 + left + right) 2001 }
{
    left.saturating_add(right)
        .saturating_add(1)
        .min(MOST_NODES + 1)
}
