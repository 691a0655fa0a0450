ghost use Rattle.std.specs.Prelude.{IfOk, IfErr};
ghost use Rattle.sg_num.specs.Stopped.{KeepsWideStep};
ghost use Rattle.sg_depth.specs.Commands.{StandsOverAll};

use crate::towers::Built;
use sg_build::Letters;
use sg_num::Stop;
use sg_tower::Tower;
use std::alloc::Global;

/// What is done in the tower over the sums of a command, whatever its type is.
pub trait Job<K: Letters>: Drop {
    ghost use Rattle.sg_limits.specs.declared.inspection.Facts.{Facts};

    type Out: Drop;

    /// When it may be done.
    ghost suits: { Self → Facts → Type 0 };

    /// What it answers.
    ghost done: { Self → Facts → Self.Out → Type 0 };

    /// Does it in this tower.
    fn run<T: Tower<K = K>>(self, alloc: Global, built: &Built<'_, T>) -> Result<Self::Out, Stop>
        requires suitable { suits self built.now.facts.now }
        requires stands { StandsOverAll built.now.facts.now (T.reading K.vars K.val built.now.tower) built.now.free_gens built.now.known }
        ensures done { IfOk result (done self built.now.facts.now) }
        ensures wide { IfErr result KeepsWideStep };
}
