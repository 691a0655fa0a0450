ghost use Rattle.std.specs.Prelude.{◌≡◌, true, false, ℕ, pos, [], IfOk, IfErr};
ghost use Rattle.sg_spec.specs.Printing.{InForm};
ghost use Rattle.sg_spec.specs.Parts.{anywhere, divides, is_body, parts, own_part, coefficients, numer};
ghost use Rattle.sg_parts.specs.Normal.{IsNormal};
ghost use Rattle.sg_parts.specs.Weights.{IsOwn, StopsHeavy};
ghost use Rattle.sg_expr.specs.Tree.{tree_of};
ghost use Rattle.sg_limits.specs.Walks.{role_of, IsBare, IsFitting, IsWalkable};
ghost use Rattle.sg_limits.specs.Divisors.{of_role, AreDivisors, StopsAmong, AreCollected, IsPushed};

use crate::walk::Role;
use sg_expr::Expr;
use sg_num::{Row, Stop};
use sg_parts::{normal_rows, numerator_of};
use sg_poly::Poly2;
use std::alloc::Global;

/// A polynomial in the variable and the parameter without a common divisor above 1 and with a positive leading coefficient, that of
/// the highest power of the variable and there of the parameter; and the number from which on its variable goes.
#[derive(Drop)]
pub struct Divisor {
    pub poly: Poly2,
    pub limit: i64,
}

/// From which number on the variable of a scope goes.
#[derive(Clone, Copy)]
struct Scope {
    from: i64,
}

/// The parts of the divisors of an expression, bodies included, in the order of the text; the variable of the outer scope goes from
/// `lower` on. The zero polynomial stands as it is. A step that doesn't fit stops it only where a part is heavier than 2^126.
pub fn divisor_parts(alloc: Global, e: &Expr, lower: i64) -> Result<Row<Divisor>, Stop>
    requires form { InForm true false (tree_of e.now) }
    ensures parts { IfOk result (λ ds. AreDivisors (of_role divides (parts anywhere lower 0 (tree_of e.now))) ds) }
    ensures stop { IfErr result (λ s. StopsAmong s (of_role divides (parts anywhere lower 0 (tree_of e.now)))) }
{
    collect(
        alloc,
        Role::Divides,
        Role::Anywhere,
        Scope { from: lower },
        e,
        Row::new(alloc),
    )
}

/// The zero parts of the bodies of the products of an expression, in the same way; of a product these are the zero parts of its body.
pub fn zero_parts(alloc: Global, e: &Expr) -> Result<Row<Divisor>, Stop>
    requires form { InForm true false (tree_of e.now) }
    ensures parts { IfOk result (λ ds. AreDivisors (of_role is_body (parts anywhere (pos 0) 0 (tree_of e.now))) ds) }
    ensures stop { IfErr result (λ s. StopsAmong s (of_role is_body (parts anywhere (pos 0) 0 (tree_of e.now)))) }
{
    collect(
        alloc,
        Role::Body,
        Role::Anywhere,
        Scope { from: 0 },
        e,
        Row::new(alloc),
    )
}

// The list, and after it the parts of this role.
fn collect(
    alloc: Global,
    wanted: Role,
    role: Role,
    scope: Scope,
    e: &Expr,
    list: Row<Divisor>,
) -> Result<Row<Divisor>, Stop>
    requires { IsWalkable (role_of role) (tree_of e.now) }
    ensures { (depth : ℕ) → AreCollected (role_of wanted) (parts (role_of role) scope.from depth (tree_of e.now)) list result }
{
    match e {
        Expr::Num(_) | Expr::Here | Expr::Param => collect_own(alloc, wanted, role, scope, e, list),
        Expr::Add(x, y) => {
            let own = collect_own(alloc, wanted, role, scope, e, list)?;
            let left = collect(alloc, wanted, Role::Anywhere, scope, x, own)?;
            collect(alloc, wanted, Role::Anywhere, scope, y, left)
        }
        Expr::Neg(x) => collect(alloc, wanted, role, scope, x, list),
        Expr::Mul(x, y) => {
            let left = collect(alloc, wanted, role, scope, x, list)?;
            collect(alloc, wanted, role, scope, y, left)
        }
        Expr::Div(x, y) => {
            let left = collect(alloc, wanted, role, scope, x, list)?;
            collect(alloc, wanted, Role::Divides, scope, y, left)
        }
        Expr::Pow(x, e) => {
            if *e == 0 {
                return collect(alloc, wanted, Role::Anywhere, scope, x, list);
            }
            collect(alloc, wanted, role, scope, x, list)
        }
        Expr::Sum { from, body } => collect(
            alloc,
            wanted,
            Role::Anywhere,
            Scope { from: *from },
            body,
            list,
        ),
        Expr::Prod { from, body } => collect(
            alloc,
            wanted,
            Role::Body,
            Scope { from: *from },
            body,
            list,
        ),
    }
}

// The list, and after it the tree itself, where it is a part of this role.
fn collect_own(
    alloc: Global,
    wanted: Role,
    role: Role,
    scope: Scope,
    e: &Expr,
    list: Row<Divisor>,
) -> Result<Row<Divisor>, Stop>
    requires own { IsOwn (tree_of e.now) }
    requires fitting { IsFitting (role_of role) (tree_of e.now) }
    ensures { (depth : ℕ) → AreCollected (role_of wanted) (own_part (role_of role) scope.from depth (tree_of e.now) []) list result }
{
    match role {
        Role::Anywhere => Ok(list),
        Role::Divides => match wanted {
            Role::Divides => pushed(alloc, scope, e, list),
            Role::Anywhere => Ok(list),
            Role::Body => Ok(list),
        },
        Role::Body => match wanted {
            Role::Body => pushed(alloc, scope, e, list),
            Role::Anywhere => Ok(list),
            Role::Divides => Ok(list),
        },
    }
}

// The list, and after it the tree itself.
fn pushed(alloc: Global, scope: Scope, e: &Expr, list: Row<Divisor>) -> Result<Row<Divisor>, Stop>
    requires own { IsOwn (tree_of e.now) }
    requires bare { IsBare (tree_of e.now) }
    ensures parts { IfOk result (λ ds. IsPushed (tree_of e.now) scope.from list ds) }
    ensures stop { IfErr result (λ s. StopsHeavy s (tree_of e.now)) }
{
    let poly = normal_form(alloc, e)?;
    let mut list = list;
    list.push(Divisor {
        poly,
        limit: scope.from,
    })?;
    Ok(list)
}

// The polynomial of the tree in its normal form.
fn normal_form(alloc: Global, e: &Expr) -> Result<Poly2, Stop>
    requires own { IsOwn (tree_of e.now) }
    requires bare { IsBare (tree_of e.now) }
    ensures normal { IfOk result (λ q. IsNormal q (coefficients (numer (tree_of e.now)))) }
    ensures stop { IfErr result (λ s. StopsHeavy s (tree_of e.now)) }
{
    let plane = numerator_of(alloc, e)?;
    let rows = normal_rows(alloc, plane.as_slice())?;
    let poly = Poly2::from_rows(alloc, rows)?;
    Ok(poly)
}
