ghost use Rattle.std.specs.Prelude.{◌≡◌, ◌+◌, ◌<◌, ◌^◌, [], ◌∷◌, ◌++◌, List, IfOk};
ghost use Rattle.sg_spec.specs.Parts.{divides, is_body};
ghost use Rattle.sg_spec.specs.Parts.{Role as Standing};
ghost use Rattle.sg_spec.specs.Faults.{Numbered};
ghost use Rattle.sg_spec.specs.Limits.{nodes};
ghost use Rattle.sg_parts.specs.Weights.{IsOwn};
ghost use Rattle.sg_expr.specs.Tree.{tree_of};
ghost use Rattle.sg_limits.specs.Walks.{role_of, own_items, items_of, at_place, IsBare, IsFitting, IsWalkable, FindsFirst, AreWalked};

use crate::LimitFault;
use sg_expr::Expr;
use sg_parts::{Zero, zero_of};
use std::alloc::{AllocError, Global};

/// How a tree stands: somewhere, as a divisor, as the body of a product, or as a factor of one of these.
#[derive(Clone, Copy)]
pub enum Role {
    Anywhere,
    Divides,
    Body,
}

/// Where a tree stands: in which expression, counted from 1, from which number on its variable goes, and in how many bodies.
#[derive(Clone, Copy)]
pub struct Place {
    pub item: u32,
    pub limit: i64,
    pub depth: u32,
}

/// A part, and the least number at which it is 0.
#[derive(Drop)]
pub struct Found {
    pub place: Place,
    pub at: i64,
    pub part: Expr,
}

/// The first pole and the first zero factor so far.
#[derive(Drop)]
pub struct Findings {
    pub pole: Option<Found>,
    pub factor: Option<Found>,
}

/// Goes over the parts of a tree in the order of the text. A far part ends the walk.
pub fn walk(
    alloc: Global,
    role: Role,
    place: Place,
    e: &Expr,
    found: Findings,
) -> Result<Findings, LimitFault>
    requires walkable { IsWalkable (role_of role) (tree_of e.now) }
    requires depth { place.depth + nodes (tree_of e.now) < 2 ^ 32 }
    ensures { AreWalked (items_of place (role_of role) (tree_of e.now)) found result }
{
    match e {
        Expr::Num(_) | Expr::Here | Expr::Param => own(alloc, role, place, e, found),
        Expr::Add(x, y) => {
            let first = own(alloc, role, place, e, found)?;
            let left = walk(alloc, Role::Anywhere, place, x, first)?;
            walk(alloc, Role::Anywhere, place, y, left)
        }
        Expr::Neg(x) => walk(alloc, role, place, x, found),
        Expr::Mul(x, y) => {
            let left = walk(alloc, role, place, x, found)?;
            walk(alloc, role, place, y, left)
        }
        Expr::Div(x, y) => {
            let left = walk(alloc, role, place, x, found)?;
            walk(alloc, Role::Divides, place, y, left)
        }
        Expr::Pow(x, e) => {
            if *e == 0 {
                return walk(alloc, Role::Anywhere, place, x, found);
            }
            walk(alloc, role, place, x, found)
        }
        Expr::Sum { from, body } => {
            let inner = Place {
                item: place.item,
                limit: *from,
                depth: place.depth + 1,
            };
            walk(alloc, Role::Anywhere, inner, body, found)
        }
        Expr::Prod { from, body } => {
            let inner = Place {
                item: place.item,
                limit: *from,
                depth: place.depth + 1,
            };
            walk(alloc, Role::Body, inner, body, found)
        }
    }
}

// Tests the tree itself, where it is a part.
fn own(
    alloc: Global,
    role: Role,
    place: Place,
    e: &Expr,
    found: Findings,
) -> Result<Findings, LimitFault>
    requires own { IsOwn (tree_of e.now) }
    requires fitting { IsFitting (role_of role) (tree_of e.now) }
    ensures { AreWalked (own_items place (role_of role) (tree_of e.now)) found result }
{
    match role {
        Role::Anywhere => Ok(found),
        Role::Divides => divisor(alloc, place, e, found),
        Role::Body => body(alloc, place, e, found),
    }
}

// Tests a part of a divisor.
fn divisor(alloc: Global, place: Place, e: &Expr, found: Findings) -> Result<Findings, LimitFault>
    requires own { IsOwn (tree_of e.now) }
    requires bare { IsBare (tree_of e.now) }
    ensures { AreWalked (at_place place divides (tree_of e.now) ∷ []) found result }
{
    let zero = zero_of(alloc, e, place.limit)?;
    match zero {
        Zero::Far => {
            let part = e.copy(alloc)?;
            Err(far(place, part))
        }
        Zero::Nowhere => Ok(found),
        Zero::At(m) => {
            let Findings { pole, factor } = found;
            let pole = first(alloc, pole, place, m, e)?;
            Ok(Findings { pole, factor })
        }
    }
}

// Tests a part of the body of a product.
fn body(alloc: Global, place: Place, e: &Expr, found: Findings) -> Result<Findings, LimitFault>
    requires own { IsOwn (tree_of e.now) }
    requires bare { IsBare (tree_of e.now) }
    ensures { AreWalked (at_place place is_body (tree_of e.now) ∷ []) found result }
{
    let zero = zero_of(alloc, e, place.limit)?;
    match zero {
        Zero::Far => {
            let part = e.copy(alloc)?;
            Err(far(place, part))
        }
        Zero::Nowhere => Ok(found),
        Zero::At(m) => {
            let Findings { pole, factor } = found;
            let factor = first(alloc, factor, place, m, e)?;
            Ok(Findings { pole, factor })
        }
    }
}

// A part that is 0 too far out.
fn far(place: Place, part: Expr) -> LimitFault
    ensures { result ≡ LimitFault.FarPole place.item part place.depth }
{
    LimitFault::FarPole {
        item: place.item,
        part,
        depth: place.depth,
    }
}

// What was found before; where nothing was, the part that is 0 at `at`.
fn first(
    alloc: Global,
    known: Option<Found>,
    place: Place,
    at: i64,
    e: &Expr,
) -> Result<Option<Found>, AllocError>
    ensures { IfOk result (λ o. FindsFirst place (tree_of e.now) at known o) }
{
    match known {
        Some(f) => Ok(Some(f)),
        None => {
            let part = e.copy(alloc)?;
            Ok(Some(Found { place, at, part }))
        }
    }
}
