ghost use Rattle.std.specs.Prelude.{ℕ, suc, IfOk, IfErr};
ghost use Rattle.sg_num.specs.Stopped.{KeepsWideStep};
ghost use Rattle.sg_depth.specs.Building.{IsBuilt};

use crate::fate::Fate;
use crate::growing::{expressed, grow};
use crate::jobs::Job;
use crate::next::next_sum;
use crate::towers::Built;
use sg_build::Letters;
use sg_num::Stop;
use sg_tower::Tower;
use std::alloc::Global;

/// How many sums are still to come. It is a type, so that no function calls itself at a larger one.
pub trait Rest: Drop {
    /// How many.
    ghost left: { ℕ };

    /// Goes on with the tower over the sums before these, and does the job in the tower over all.
    fn over<F: Letters, T: Tower<K = F>, J: Job<F>>(
        self,
        alloc: Global,
        built: Built<'_, T>,
        job: J,
    ) -> Result<J::Out, Stop>
        requires suitable { J.suits job built.facts.now }
        requires state { IsBuilt built.facts.now left (T.reading F.vars F.val built.tower) built.free_gens built.known }
        ensures done { IfOk result (J.done job built.entry.facts.now) }
        ensures wide { IfErr result KeepsWideStep };
}

/// None.
#[derive(Drop)]
pub struct Last;

impl Rest for Last {
    ghost left = { 0 };

    fn over<F: Letters, T: Tower<K = F>, J: Job<F>>(
        self,
        alloc: Global,
        built: Built<'_, T>,
        job: J,
    ) -> Result<J::Out, Stop> {
        let Last = self;
        job.run(alloc, &built)
    }
}

/// One, and then the others.
#[derive(Drop)]
pub struct More<R: Rest>(pub R);

impl<R: Rest> Rest for More<R> {
    ghost left = { suc R.left };

    fn over<F: Letters, T: Tower<K = F>, J: Job<F>>(
        self,
        alloc: Global,
        built: Built<'_, T>,
        job: J,
    ) -> Result<J::Out, Stop> {
        let More(others) = self;
        match next_sum(alloc, &built)? {
            Fate::Known(element) => {
                let more = expressed(built, element)?;
                others.over(alloc, more, job)
            }
            Fate::New(beta) => {
                let more = grow(alloc, built, beta)?;
                others.over(alloc, more, job)
            }
        }
    }
}
