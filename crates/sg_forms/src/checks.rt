ghost use Rattle.std.specs.Prelude.{◌<◌, length, map, All, IfOk, IfErr};
ghost use Rattle.std.specs.Bool.{OnTrue, OnFalse};
ghost use Rattle.sg_num.specs.Stopped.{KeepsWideStep};
ghost use Rattle.sg_num.specs.Value.{number};
ghost use Rattle.sg_expr.specs.Tree.{tree_of};
ghost use Rattle.sg_build.specs.Letters.{letter, HasNoLetter};
ghost use Rattle.sg_depth.specs.Commands.{AreSound, AreAdmitted, sums_of, StandsOverAll};
ghost use Rattle.sg_forms.specs.Commands.{FirstTelescopes, FirstFails};
ghost use Rattle.sg_forms.specs.Listed.{IsListed, IsCheck};

use crate::placing::placed;
use sg_depth::{Built, Job, with_tower};
use sg_expr::Expr;
use sg_limits::Facts;
use sg_num::{Rat, Row, Stop};
use sg_tower::Tower;
use std::alloc::Global;

/// Whether the second expression telescopes the first, which it does at each place from the start of the facts on; else it fails
/// beyond every point. The error is out of memory, or a step that doesn't fit 128 bits.
pub fn checked(alloc: Global, facts: &Facts, items: &Row<Expr>, lower: i64) -> Result<bool, Stop>
    requires two { 1 < length items.now }
    requires admitted { AreAdmitted lower facts.now (map tree_of items.now) }
    ensures yes { IfOk result (λ b. OnTrue b (FirstTelescopes lower (map tree_of items.now))) }
    ensures no { IfOk result (λ b. OnFalse b (FirstFails (map tree_of items.now))) }
    ensures wide { IfErr result KeepsWideStep }
{
    // the limit stands in the contract alone: the facts have it already
    let _ = lower;
    let holds = telescopes(alloc, facts, items.get(0), items.get(1))?;
    Ok(holds)
}

// Whether g telescopes f, over the sums of the facts.
fn telescopes(alloc: Global, facts: &Facts, f: &Expr, g: &Expr) -> Result<bool, Stop>
    requires summand { IsListed facts.now (tree_of f.now) }
    requires antidifference { IsListed facts.now (tree_of g.now) }
    requires sound { AreSound (letter 0) facts.now }
    requires no_letter { All (HasNoLetter 0) (sums_of facts.now) }
    ensures check { IfOk result (IsCheck facts.now (tree_of f.now) (tree_of g.now)) }
    ensures wide { IfErr result KeepsWideStep }
{
    let summand = f.copy(alloc)?;
    let antidifference = g.copy(alloc)?;
    let job = Check {
        summand,
        antidifference,
    };
    let holds = with_tower(alloc, facts, job)?;
    Ok(holds)
}

// Two expressions, of which the second may telescope the first.
#[derive(Drop)]
struct Check {
    summand: Expr,
    antidifference: Expr,
}

impl Job<Rat> for Check {
    ghost use Rattle.sg_forms.specs.Jobs.{IsSuitedToCheck, IsCheckOf};

    type Out = bool;

    ghost suits = { IsSuitedToCheck };

    ghost done = { IsCheckOf };

    fn run<T: Tower<K = Rat>>(self, alloc: Global, built: &Built<'_, T>) -> Result<bool, Stop> {
        let holds = telescopes_in(alloc, built, &self.summand, &self.antidifference)?;
        Ok(holds)
    }
}

// The same in the tower over the sums: whether the elements telescope.
fn telescopes_in<T: Tower<K = Rat>>(
    alloc: Global,
    built: &Built<'_, T>,
    f: &Expr,
    g: &Expr,
) -> Result<bool, Stop>
    requires stands { StandsOverAll built.now.facts.now (T.reading 0 number built.now.tower) built.now.free_gens built.now.known }
    requires summand { IsListed built.now.facts.now (tree_of f.now) }
    requires antidifference { IsListed built.now.facts.now (tree_of g.now) }
    ensures check { IfOk result (IsCheck built.now.facts.now (tree_of f.now) (tree_of g.now)) }
    ensures wide { IfErr result KeepsWideStep }
{
    let x = placed(alloc, built, f)?;
    let y = placed(alloc, built, g)?;
    let next = built.tower.shift(alloc, &y)?;
    let difference = built.tower.sub(alloc, &next, &y)?;
    let same = built.tower.same(alloc, &x, &difference)?;
    Ok(same)
}
