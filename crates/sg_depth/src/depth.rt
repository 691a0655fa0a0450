ghost use Rattle.std.specs.Prelude.{◌≡◌, length, All, IfOk, IfErr};
ghost use Rattle.sg_num.specs.Stopped.{KeepsWideStep};
ghost use Rattle.sg_build.specs.Letters.{letter, HasNoLetter};
ghost use Rattle.sg_depth.specs.Commands.{AreSound, sums_of};
ghost use Rattle.sg_depth.specs.Building.{IsBuilt};

use crate::jobs::Job;
use crate::rests::{Last, More, Rest};
use crate::towers::Built;
use sg_bottom::Bottom;
use sg_build::Letters;
use sg_limits::Facts;
use sg_num::{Row, Stop};
use sg_tower::Tower;
use std::alloc::Global;

/// Builds the tower over the sums of the facts, a level for each that is new over those before it, and does the job in it (Karr
/// 1981). The error is out of memory, or a step that doesn't fit 128 bits.
pub fn with_tower<F: Letters, J: Job<F>>(
    alloc: Global,
    facts: &Facts,
    job: J,
) -> Result<J::Out, Stop>
    requires suitable { J.suits job facts.now }
    requires sound { AreSound (letter F.vars) facts.now }
    requires no_letter { All (HasNoLetter F.vars) (sums_of facts.now) }
    ensures done { IfOk result (J.done job facts.now) }
    ensures wide { IfErr result KeepsWideStep }
{
    let built = begun(alloc, facts);
    match facts.sums.len() {
        0 => Last.over(alloc, built, job),
        1 => More(Last).over(alloc, built, job),
        2 => More(More(Last)).over(alloc, built, job),
        3 => More(More(More(Last))).over(alloc, built, job),
        4 => More(More(More(More(Last)))).over(alloc, built, job),
        5 => More(More(More(More(More(Last))))).over(alloc, built, job),
        6 => More(More(More(More(More(More(Last)))))).over(alloc, built, job),
        7 => More(More(More(More(More(More(More(Last))))))).over(alloc, built, job),
        _ => More(More(More(More(More(More(More(More(Last)))))))).over(alloc, built, job),
    }
}

// The tower over none of the sums.
fn begun<F: Letters>(alloc: Global, facts: &Facts) -> Built<'_, Bottom<F>>
    requires sound { AreSound (letter F.vars) facts.now }
    requires no_letter { All (HasNoLetter F.vars) (sums_of facts.now) }
    ensures facts { result.facts.now ≡ facts.now }
    ensures none { IsBuilt facts.now (length facts.now.sums) (⟦<Bottom<F> as Tower>⟧.reading F.vars F.val result.tower) result.free_gens result.known }
{
    let tower: Bottom<F> = Bottom::none(alloc);
    let known = Row::new(alloc);
    let free_gens = Row::new(alloc);
    Built {
        facts,
        tower,
        known,
        free_gens,
    }
}
