ghost use Rattle.std.specs.Prelude.{◌↔◌, [], IsTrue};
ghost use Rattle.sg_expr.specs.Tree.{tree_of};
ghost use Rattle.sg_reciprocals.specs.Reciprocals.{IsVariable, IsNumeral, IsNumber, IsLinear, IsReciprocal};
ghost use Rattle.sg_spec.specs.Generators.{Over};
ghost use Rattle.sg_spec.specs.Telescoping.{Tele};
ghost use Rattle.sg_spec.specs.Tree.{Tree};

use sg_expr::Expr;

/// Whether an expression is a number other than 0 over the variable plus a number. If so, no expression without sums and
/// products telescopes it, from no point on. It takes no memory, and makes no step of fractions.
pub fn is_reciprocal(e: &Expr) -> bool
    ensures decided { IsTrue result ↔ IsReciprocal (tree_of e.now) }
    ensures none { IsTrue result → (g : Tree) → Over [] g → ¬ Tele g (tree_of e.now) }
{
    match e {
        Expr::Div(a, b) => is_number(a) && is_linear(b),
        _ => false,
    }
}

// Whether it is a numeral other than 0.
fn is_number(e: &Expr) -> bool
    ensures { IsTrue result ↔ IsNumber (tree_of e.now) }
{
    match e {
        Expr::Num(c) => *c != 0,
        _ => false,
    }
}

// Whether it is the variable plus a numeral.
fn is_linear(e: &Expr) -> bool
    ensures { IsTrue result ↔ IsLinear (tree_of e.now) }
{
    match e {
        Expr::Add(a, b) => is_variable(a) && is_numeral(b),
        _ => false,
    }
}

// Whether it is the variable.
fn is_variable(e: &Expr) -> bool
    ensures { IsTrue result ↔ IsVariable (tree_of e.now) }
{
    match e {
        Expr::Here => true,
        _ => false,
    }
}

// Whether it is a numeral.
fn is_numeral(e: &Expr) -> bool
    ensures { IsTrue result ↔ IsNumeral (tree_of e.now) }
{
    match e {
        Expr::Num(_) => true,
        _ => false,
    }
}
