ghost use Rattle.std.specs.Prelude.{◌<◌, false, length, map, All, IfOk, IfErr};
ghost use Rattle.sg_num.specs.Stopped.{KeepsWideStep};
ghost use Rattle.sg_num.specs.Value.{number};
ghost use Rattle.sg_expr.specs.Tree.{tree_of};
ghost use Rattle.sg_spec.specs.Printing.{InForm};
ghost use Rattle.sg_build.specs.Letters.{letter, HasNoLetter};
ghost use Rattle.sg_depth.specs.Commands.{AreSound, AreAdmitted, sums_of, StandsOverAll};
ghost use Rattle.sg_forms.specs.Commands.{IsFirstSimplified, HasOneForm};
ghost use Rattle.sg_forms.specs.Listed.{IsListed, IsSimplestOf, IsPrintedForm};

use crate::frees::standings_in;
use crate::placing::{expression_over, placed};
use sg_depth::{Built, Job, free_sums, with_tower};
use sg_expr::Expr;
use sg_limits::Facts;
use sg_num::{Rat, Row, Stop};
use sg_tower::Tower;
use std::alloc::Global;

/// The first expression in its one canonical form over those sums of all expressions that are new over the ones before them (Karr
/// 1981), from the start of the facts on: expressions over the same sums have the same form exactly where they agree from some
/// point on. The error is out of memory, or a step that doesn't fit 128 bits.
pub fn simplified(alloc: Global, facts: &Facts, items: &Row<Expr>, lower: i64) -> Result<Expr, Stop>
    requires some { 0 < length items.now }
    requires admitted { AreAdmitted lower facts.now (map tree_of items.now) }
    ensures simplified { IfOk result (λ h. IsFirstSimplified lower (map tree_of items.now) (tree_of h)) }
    ensures one_form { IfOk result (λ h. HasOneForm (map tree_of items.now) (tree_of h)) }
    ensures form { IfOk result (λ h. InForm false false (tree_of h)) }
    ensures wide { IfErr result KeepsWideStep }
{
    // the limit stands in the contract alone: the facts have it already
    let _ = lower;
    let h = simplest(alloc, facts, items.get(0))?;
    Ok(h)
}

// The simplest form of f, over the sums of the facts.
fn simplest(alloc: Global, facts: &Facts, f: &Expr) -> Result<Expr, Stop>
    requires listed { IsListed facts.now (tree_of f.now) }
    requires sound { AreSound (letter 0) facts.now }
    requires no_letter { All (HasNoLetter 0) (sums_of facts.now) }
    ensures simplest { IfOk result (λ h. IsSimplestOf facts.now (tree_of f.now) (tree_of h)) }
    ensures printed { IfOk result (λ h. IsPrintedForm facts.now (tree_of h)) }
    ensures wide { IfErr result KeepsWideStep }
{
    let expression = f.copy(alloc)?;
    let job = Simplification { expression };
    let h = with_tower(alloc, facts, job)?;
    Ok(h)
}

// An expression to be simplified.
#[derive(Drop)]
struct Simplification {
    expression: Expr,
}

impl Job<Rat> for Simplification {
    ghost use Rattle.sg_forms.specs.Jobs.{IsSuitedToSimplify, IsSimplestForm};

    type Out = Expr;

    ghost suits = { IsSuitedToSimplify };

    ghost done = { IsSimplestForm };

    fn run<T: Tower<K = Rat>>(self, alloc: Global, built: &Built<'_, T>) -> Result<Expr, Stop> {
        let h = simplest_in(alloc, built, &self.expression)?;
        Ok(h)
    }
}

// The same in the tower over the sums. That the form is the only one rests on what each of the sums is, so that is found out first.
fn simplest_in<T: Tower<K = Rat>>(
    alloc: Global,
    built: &Built<'_, T>,
    f: &Expr,
) -> Result<Expr, Stop>
    requires stands { StandsOverAll built.now.facts.now (T.reading 0 number built.now.tower) built.now.free_gens built.now.known }
    requires listed { IsListed built.now.facts.now (tree_of f.now) }
    ensures simplest { IfOk result (λ h. IsSimplestOf built.now.facts.now (tree_of f.now) (tree_of h)) }
    ensures printed { IfOk result (λ h. IsPrintedForm built.now.facts.now (tree_of h)) }
    ensures wide { IfErr result KeepsWideStep }
{
    let _told = standings_in(alloc, built)?;
    let x = placed(alloc, built, f)?;
    let frees = free_sums(alloc, built)?;
    let h = expression_over(alloc, built, &frees, &x)?;
    Ok(h)
}
