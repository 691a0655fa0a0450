ghost use Rattle.std.specs.Prelude.{◌≡◌, IfOk, map};
ghost use Rattle.sg_lines.specs.Lines.{lines_of, words_in};
ghost use Rattle.sg_top.specs.Answer.{IsLineAnswer, IsBatch};
ghost use Rattle.sg_top.specs.Ending.{Ends, IsBatchOutput};

use crate::Status;
use crate::answer::line_reply;
use crate::reply::Reply;
use crate::send::{deliver, send};
use sg_io::{Sink, Source};
use sg_lines::{Unread, first_line, read_whole, words_of};
use std::alloc::{AllocError, Global};

/// Answers each line of the source as a command line, after it was read to its end. No more memory is kept from line to line
/// than the source takes.
pub fn answer_batch<S: Source, K: Sink>(alloc: Global, source: &mut S, sink: &mut K) -> Status
    ensures { Ends
        (IsBatchOutput (record {
          left = S.remaining source.old;
          left_after = S.remaining source.new;
          faults = S.fault_count source.old;
          faults_after = S.fault_count source.new;
        }))
        result (K.contents sink.old) (K.contents sink.new) (K.fault_count sink.old) (K.fault_count sink.new) }
{
    match read_whole(alloc, source) {
        Ok(text) => answer_lines(alloc, text.as_slice(), sink),
        Err(Unread::Large) => deliver(sink, b"refused batch\n", Status::Refused),
        Err(Unread::Fault) => deliver(sink, b"read fault\n", Status::ReadFault),
        Err(Unread::Memory(_)) => deliver(sink, b"memory\n", Status::Memory),
    }
}

// Answers the lines of a text in turn. A line that is out of memory is the last one.
fn answer_lines<K: Sink>(alloc: Global, text: &[u8], sink: &mut K) -> Status
    ensures { Ends (IsBatch (map words_in (lines_of text.now))) result (K.contents sink.old) (K.contents sink.new) (K.fault_count sink.old) (K.fault_count sink.new) }
{
    let mut rest = text;
    while let Some((line, more)) = first_line(rest) {
        match text_reply(alloc, line) {
            Ok(reply) => {
                if send(sink, reply.text.as_slice()).is_err() {
                    return Status::WriteFault;
                }
            }
            Err(_) => return deliver(sink, b"memory\n", Status::Memory),
        }
        rest = more;
    }
    Status::Done
}

// The answer to a line. The error is out of memory.
fn text_reply(alloc: Global, line: &[u8]) -> Result<Reply, AllocError>
    ensures { IfOk result (λ r. IsLineAnswer (words_in line.now) r.status r.text.items) }
{
    let words = words_of(alloc, line)?;
    let reply = line_reply(alloc, words.as_slice())?;
    Ok(reply)
}
