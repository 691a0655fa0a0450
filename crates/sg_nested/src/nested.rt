ghost use Rattle.std.specs.Prelude.{◌<◌, length, map, false, All, IfOk, IfErr, IfSome, IfNone};
ghost use Rattle.sg_num.specs.Stopped.{KeepsWideStep};
ghost use Rattle.sg_num.specs.Value.{number};
ghost use Rattle.sg_expr.specs.Tree.{tree_of};
ghost use Rattle.sg_spec.specs.Printing.{InForm};
ghost use Rattle.sg_build.specs.Letters.{letter, HasNoLetter};
ghost use Rattle.sg_depth.specs.Commands.{AreSound, AreAdmitted, sums_of, StandsOverAll};
ghost use Rattle.sg_nested.specs.Commands.{IsFirstClosed, IsFirstCanonical, HasNoFirst};
ghost use Rattle.sg_nested.specs.Summands.{IsSummand, IsAnswer};

use crate::total::total;
use sg_build::{express, place};
use sg_depth::{Built, Job, free_sums, with_tower};
use sg_expr::Expr;
use sg_limits::Facts;
use sg_num::{Rat, Row, Stop};
use sg_tele::telescope;
use sg_tower::Tower;
use std::alloc::Global;

/// The closed form of the sum of the first expression from a lower limit on, over the sums of all of them (Karr 1981): in canonical
/// form over new sums alone, from the start of the facts on. None where no expression over these sums, which may stand in divisors,
/// telescopes it from any point on. The error is out of memory, or a step that doesn't fit 128 bits.
pub fn nested_closed(
    alloc: Global,
    facts: &Facts,
    items: &Row<Expr>,
    lower: i64,
) -> Result<Option<Expr>, Stop>
    requires some { 0 < length items.now }
    requires admitted { AreAdmitted lower facts.now (map tree_of items.now) }
    ensures closed { IfOk result (λ o. IfSome o (λ h. IsFirstClosed lower (map tree_of items.now) (tree_of h))) }
    ensures canonical { IfOk result (λ o. IfSome o (λ h. IsFirstCanonical (map tree_of items.now) (tree_of h))) }
    ensures form { IfOk result (λ o. IfSome o (λ h. InForm false false (tree_of h))) }
    ensures none { IfOk result (λ o. IfNone o (HasNoFirst (map tree_of items.now))) }
    ensures wide { IfErr result KeepsWideStep }
{
    let found = summed(alloc, facts, items.get(0), lower)?;
    Ok(found)
}

// The closed form of the sum of f, over the sums of the facts.
fn summed(alloc: Global, facts: &Facts, f: &Expr, lower: i64) -> Result<Option<Expr>, Stop>
    requires summand { IsSummand facts.now (tree_of f.now) lower }
    requires sound { AreSound (letter 0) facts.now }
    requires no_letter { All (HasNoLetter 0) (sums_of facts.now) }
    ensures answer { IfOk result (IsAnswer facts.now (tree_of f.now) lower) }
    ensures wide { IfErr result KeepsWideStep }
{
    let summand = f.copy(alloc)?;
    let job = Summation { summand, lower };
    let found = with_tower(alloc, facts, job)?;
    Ok(found)
}

// The sum of an expression from a lower limit on.
#[derive(Drop)]
struct Summation {
    summand: Expr,
    lower: i64,
}

impl Job<Rat> for Summation {
    ghost use Rattle.sg_nested.specs.Jobs.{IsSuited, IsDone};

    type Out = Option<Expr>;

    ghost suits = { IsSuited };

    ghost done = { IsDone };

    fn run<T: Tower<K = Rat>>(
        self,
        alloc: Global,
        built: &Built<'_, T>,
    ) -> Result<Option<Expr>, Stop> {
        let found = closed_in(alloc, built, &self.summand, self.lower)?;
        Ok(found)
    }
}

// The closed form, in the tower over the sums.
fn closed_in<T: Tower<K = Rat>>(
    alloc: Global,
    built: &Built<'_, T>,
    f: &Expr,
    lower: i64,
) -> Result<Option<Expr>, Stop>
    requires stands { StandsOverAll built.now.facts.now (T.reading 0 number built.now.tower) built.now.free_gens built.now.known }
    requires summand { IsSummand built.now.facts.now (tree_of f.now) lower }
    ensures answer { IfOk result (IsAnswer built.now.facts.now (tree_of f.now) lower) }
    ensures wide { IfErr result KeepsWideStep }
{
    let x = place(
        alloc,
        &built.tower,
        built.facts.prods.as_slice(),
        built.facts.sums.as_slice(),
        built.known.as_slice(),
        f,
    )?;
    match telescope(alloc, &built.tower, &x)? {
        None => Ok(None),
        Some(g) => {
            let y = total(alloc, built, f, lower, &g)?;
            let frees = free_sums(alloc, built)?;
            let none = Row::new(alloc);
            let h = express(alloc, &built.tower, none.as_slice(), frees.as_slice(), &y)?;
            Ok(Some(h))
        }
    }
}
