ghost use Rattle.std.specs.Prelude.{negsuc, map, IfOk, IfErr};
ghost use Rattle.sg_num.specs.Stopped.{KeepsWideStep};
ghost use Rattle.sg_expr.specs.Tree.{tree_of};
ghost use Rattle.sg_spec.specs.Generators.{sums, start};
ghost use Rattle.sg_depth.specs.Commands.{AreAdmitted};
ghost use Rattle.sg_forms.specs.Commands.{AreTold, ArePrinted};

use crate::frees::{Standing, standings_in};
use sg_depth::{Built, Job, with_tower};
use sg_expr::Expr;
use sg_limits::Facts;
use sg_num::{Rat, Row, Stop};
use sg_tower::Tower;
use std::alloc::Global;

/// What each of the sums of the expressions is over those before it (Karr 1981): new, or expressed by the new ones before it, in
/// canonical form, from the start of the facts on. The limit from which the start counts is -1,001, below all sums. The error is
/// out of memory, or a step that doesn't fit 128 bits.
pub fn standings(alloc: Global, facts: &Facts, items: &Row<Expr>) -> Result<Row<Standing>, Stop>
    requires admitted { AreAdmitted (negsuc 1000) facts.now (map tree_of items.now) }
    ensures told { IfOk result (AreTold (start (map tree_of items.now) (negsuc 1000)) (sums (map tree_of items.now))) }
    ensures printed { IfOk result ArePrinted }
    ensures wide { IfErr result KeepsWideStep }
{
    // the expressions stand in the contract alone: the facts have their sums
    let _ = items;
    let told = with_tower(alloc, facts, Telling)?;
    Ok(told)
}

// What is told of the sums.
#[derive(Drop)]
struct Telling;

impl Job<Rat> for Telling {
    ghost use Rattle.sg_forms.specs.Jobs.{IsAnyTelling, AreTellings};

    type Out = Row<Standing>;

    ghost suits = { IsAnyTelling };

    ghost done = { AreTellings };

    fn run<T: Tower<K = Rat>>(
        self,
        alloc: Global,
        built: &Built<'_, T>,
    ) -> Result<Row<Standing>, Stop> {
        let Telling = self;
        let told = standings_in(alloc, built)?;
        Ok(told)
    }
}
