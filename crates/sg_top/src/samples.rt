ghost use Rattle.std.specs.Prelude.{◌≡◌, ◌∷◌, ◌+◌, ◌*◌, ◌^◌, ◌-◌, ◌<◌, [], ◌++◌, IfOk, if◌then◌else◌, codes, decimal, length, pos};
ghost use Rattle.sg_gen.specs.Sample.{sampled};
ghost use Rattle.sg_words.specs.declared.asked.Command.TheVariants.{Sum};
ghost use Rattle.sg_top.specs.Answer.{IsTreeReply, IsGenLine, is_done, is_no, is_wide};

use crate::Status;
use crate::answer::output;
use crate::reply::Reply;
use crate::taken::count_text;
use itoa::Buffer;
use sg_gen::sample;
use sg_limits::inspect;
use sg_num::Row;
use sg_words::Command;
use std::alloc::{AllocError, Global};

/// Sums so many samples of a seed from 1 on, and tells how many answers of each kind there were and how long they were. The
/// error is out of memory.
pub fn gen_reply(alloc: Global, seed: u64, count: u32) -> Result<Reply, AllocError>
    ensures { IfOk result (λ r. IsGenLine seed count r.status r.text.items) }
{
    let mut tally = Tally {
        closed: 0,
        none: 0,
        wide: 0,
        bytes: 0,
    };
    for i in 0..count {
        let reply = sample_reply(alloc, seed, i)?;
        tally = tally.and(&reply);
    }
    let text = tally.line(alloc)?;
    Ok(Reply::done(text))
}

// The answer for the sum of a sample.
fn sample_reply(alloc: Global, seed: u64, i: u32) -> Result<Reply, AllocError>
    ensures { IfOk result (λ r. IsTreeReply (Sum (pos 1)) (sampled seed i ∷ []) r.status r.text.items) }
{
    let mut items = Row::new(alloc);
    items.push(sample(alloc, seed, i)?)?;
    match inspect(alloc, &items, None) {
        Ok(_) => {
            let reply = output(alloc, Command::Sum { lower: 1 }, &items)?;
            Ok(reply)
        }
        Err(fault) => {
            let line = count_text(alloc, fault)?;
            Ok(Reply::refused(line))
        }
    }
}

// How many answers of each kind there were, and how many bytes they had.
#[derive(Clone, Copy)]
struct Tally {
    closed: u32,
    none: u32,
    wide: u32,
    bytes: u128,
}

impl Tally {
    // With one more answer.
    fn and(self, reply: &Reply) -> Tally
        requires few { (self.closed < 2 ^ 32 - 1) × (self.none < 2 ^ 32 - 1) × (self.wide < 2 ^ 32 - 1) }
        requires few_bytes { self.bytes < 2 ^ 32 * 2 ^ 64 }
        ensures closed { result.closed ≡ self.closed + (if is_done reply.now.status then 1 else 0) }
        ensures none { result.none ≡ self.none + (if is_no reply.now.status then 1 else 0) }
        ensures wide { result.wide ≡ self.wide + (if is_wide reply.now.status then 1 else 0) }
        ensures bytes { result.bytes ≡ self.bytes + length reply.now.text.items }
        ensures size { length reply.now.text.items < 2 ^ 64 }
    {
        let mut tally = self;
        match reply.status {
            Status::Done => tally.closed += 1,
            Status::No => tally.none += 1,
            Status::Wide => tally.wide += 1,
            _ => {}
        }
        tally.bytes += reply.text.len() as u128;
        tally
    }

    // `closed <c> none <x> wide <w> bytes <b>`.
    fn line(&self, alloc: Global) -> Result<Vec<u8>, AllocError>
        ensures { IfOk result (λ t. t.items ≡ codes "closed " ++ decimal self.now.closed ++ codes " none " ++ decimal self.now.none
            ++ codes " wide " ++ decimal self.now.wide ++ codes " bytes " ++ decimal self.now.bytes ++ codes "\n") }
    {
        let mut buffer = Buffer::new();
        let mut text = Vec::from_slice(alloc, b"closed ")?;
        text.extend_from_slice(buffer.format(self.closed).as_bytes())?;
        text.extend_from_slice(b" none ")?;
        text.extend_from_slice(buffer.format(self.none).as_bytes())?;
        text.extend_from_slice(b" wide ")?;
        text.extend_from_slice(buffer.format(self.wide).as_bytes())?;
        text.extend_from_slice(b" bytes ")?;
        text.extend_from_slice(buffer.format(self.bytes).as_bytes())?;
        text.extend_from_slice(b"\n")?;
        Ok(text)
    }
}
