ghost use Rattle.std.specs.Prelude.{◌≡◌, IfOk};
ghost use Rattle.sg_num.specs.Stopped.{KeepsWideStep, IsMemory};
ghost use Rattle.sg_top.specs.Lines.{wide_line};
ghost use Rattle.sg_top.specs.Taking.{IsStopped};

use crate::Status;
use crate::lines::wide_text;
use sg_num::{Stop, Wide};
use std::alloc::{AllocError, Global};

/// The whole text of an answer, and its status.
#[derive(Drop)]
pub struct Reply {
    pub text: Vec<u8>,
    pub status: Status,
}

// The error of each call is out of memory.
impl Reply {
    /// Fixed bytes.
    pub fn fixed(alloc: Global, text: &[u8], status: Status) -> Result<Reply, AllocError>
        ensures text { IfOk result (λ r. r.text.items ≡ text.now) }
        ensures status { IfOk result (λ r. r.status ≡ status) }
    {
        let text = Vec::from_slice(alloc, text)?;
        Ok(Reply { text, status })
    }

    /// What was asked for.
    pub fn done(text: Vec<u8>) -> Reply
        ensures { result ≡ record { text = text; status = Status.Done } }
    {
        Reply {
            text,
            status: Status::Done,
        }
    }

    /// That there is none of what was asked for.
    pub fn no(text: Vec<u8>) -> Reply
        ensures { result ≡ record { text = text; status = Status.No } }
    {
        Reply {
            text,
            status: Status::No,
        }
    }

    /// The line of a refusal.
    pub fn refused(text: Vec<u8>) -> Reply
        ensures { result ≡ record { text = text; status = Status.Refused } }
    {
        Reply {
            text,
            status: Status::Refused,
        }
    }

    /// The line of a step that doesn't fit.
    pub fn wide(alloc: Global, step: Wide) -> Result<Reply, AllocError>
        ensures text { IfOk result (λ r. r.text.items ≡ wide_line step) }
        ensures status { IfOk result (λ r. r.status ≡ Status.Wide) }
    {
        let text = wide_text(alloc, step)?;
        Ok(Reply {
            text,
            status: Status::Wide,
        })
    }

    /// The line of what stopped a call: a step that doesn't fit.
    pub fn stopped(alloc: Global, stop: Stop) -> Result<Reply, AllocError>
        requires { KeepsWideStep stop }
        ensures line { IfOk result (λ r. IsStopped r.status r.text.items) }
        ensures no_memory { IfOk result (λ _. IsMemory stop → ⊥) }
    {
        match stop {
            Stop::Wide(wide) => {
                let reply = Reply::wide(alloc, wide)?;
                Ok(reply)
            }
            Stop::Memory(want) => Err(want),
        }
    }
}
