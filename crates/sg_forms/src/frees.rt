ghost use Rattle.std.specs.Prelude.{◌≡◌, ◌<◌, suc, length, map, get_or, IfOk, IfErr, IfSome, IfNone};
ghost use Rattle.sg_algebra.specs.Coefficients.{Each};
ghost use Rattle.sg_num.specs.Stopped.{KeepsWideStep};
ghost use Rattle.sg_num.specs.Value.{number};
ghost use Rattle.sg_expr.specs.Tree.{tree_of};
ghost use Rattle.sg_depth.specs.Commands.{AreNewSums, sums_of, StandsOverAll};
ghost use Rattle.sg_forms.specs.Listed.{AreTelling, IsTelling, IsPrintedMark};
ghost use Rattle.sg_forms.specs.Marks.{marks_of};

use crate::placing::expression_over;
use sg_depth::{Built, free_sums};
use sg_expr::Expr;
use sg_num::{Rat, Row, Stop};
use sg_tower::Tower;
use std::alloc::Global;

/// What a sum is over those before it.
#[derive(Drop)]
pub enum Standing {
    /// New: no expression over those before it agrees with it from any point on.
    Free,
    /// This expression, from the start on.
    Expressed(Expr),
}

// What is told of the first sums, and how many of them are new.
#[derive(Drop)]
pub struct Told {
    pub standings: Row<Standing>,
    pub next: usize,
}

/// What each of the sums is over those before it (Karr 1981): those that the tower stands over are new, and each other one is
/// expressed by those of them that come before.
pub fn standings_in<T: Tower<K = Rat>>(
    alloc: Global,
    built: &Built<'_, T>,
) -> Result<Row<Standing>, Stop>
    requires stands { StandsOverAll built.now.facts.now (T.reading 0 number built.now.tower) built.now.free_gens built.now.known }
    ensures told { IfOk result (AreTelling built.now.facts.now built.now.free_gens) }
    ensures printed { IfOk result (λ r. Each (IsPrintedMark built.now.facts.now) (marks_of r)) }
    ensures wide { IfErr result KeepsWideStep }
{
    let frees = free_sums(alloc, built)?;
    let mut told = Told {
        standings: Row::new(alloc),
        next: 0,
    };
    for i in 0..built.facts.sums.len() {
        told = one_more(alloc, built, &frees, told, i)?;
    }
    let Told { standings, next: _ } = told;
    Ok(standings)
}

// What is told of one more sum.
fn one_more<T: Tower<K = Rat>>(
    alloc: Global,
    built: &Built<'_, T>,
    frees: &Row<Expr>,
    told: Told,
    i: usize,
) -> Result<Told, Stop>
    requires stands { StandsOverAll built.now.facts.now (T.reading 0 number built.now.tower) built.now.free_gens built.now.known }
    requires frees { AreNewSums built.now.facts.now built.now.free_gens (map tree_of frees.now) }
    requires inside { i < length (sums_of built.now.facts.now) }
    requires so_far { IsTelling built.now.facts.now built.now.free_gens i told.next told.standings }
    requires printed { Each (IsPrintedMark built.now.facts.now) (marks_of told.standings) }
    ensures told { IfOk result (λ r. IsTelling built.now.facts.now built.now.free_gens (suc i) r.next r.standings) }
    ensures printed { IfOk result (λ r. Each (IsPrintedMark built.now.facts.now) (marks_of r.standings)) }
    ensures wide { IfErr result KeepsWideStep }
{
    let Told {
        mut standings,
        next,
    } = told;
    match place_after(&built.free_gens, next, i) {
        Some(after) => {
            standings.push(Standing::Free)?;
            Ok(Told {
                standings,
                next: after,
            })
        }
        None => {
            let h = expression_over(alloc, built, frees, built.known.get(i))?;
            standings.push(Standing::Expressed(h))?;
            Ok(Told { standings, next })
        }
    }
}

// Which of the places comes after the next one, where that is i; None where it isn't.
fn place_after(places: &Row<u32>, next: usize, i: usize) -> Option<usize>
    ensures some { IfSome result (λ m. (m ≡ suc next) × (next < length places.now) × (get_or places.now next 0 ≡ i)) }
    ensures none { IfNone result (¬ ((next < length places.now) × (get_or places.now next 0 ≡ i))) }
{
    if next < places.len() {
        if *places.get(next) as usize == i {
            return Some(next + 1);
        }
    }
    None
}
