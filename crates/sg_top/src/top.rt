ghost use Rattle.std.specs.Prelude.{◌≡◌, IfOk, map, string_bytes};
ghost use Rattle.sg_words.specs.Words.{IsBatchWord};
ghost use Rattle.sg_top.specs.Answer.{Answers};

use crate::Status;
use crate::answer::reply_to;
use crate::batch::answer_batch;
use crate::send::deliver;
use sg_io::{Sink, Source};
use sg_num::Row;
use sg_words::is_batch;
use std::alloc::{AllocError, Global};

/// Answers a command line, given by the words after the program's name: does all that the program does. What is appended
/// to the sink is the text of the answer; after a write fault it is first bytes of such a text. Want of memory is answered
/// by a line of fixed bytes. Only `batch` reads the source.
pub fn sigma<S: Source, K: Sink>(
    alloc: Global,
    words: &[String],
    source: &mut S,
    sink: &mut K,
) -> Status
    ensures answers { Answers
        (record {
          left = S.remaining source.old;
          left_after = S.remaining source.new;
          faults = S.fault_count source.old;
          faults_after = S.fault_count source.new;
        })
        (map string_bytes words.now) result (K.contents sink.old) (K.contents sink.new) (K.fault_count sink.old) (K.fault_count sink.new) }
    ensures unread { (IsBatchWord (map string_bytes words.now) → ⊥) → source.new ≡ source.old }
{
    match byte_words(alloc, words) {
        Ok(list) => answer(alloc, list.as_slice(), source, sink),
        Err(_) => deliver(sink, b"memory\n", Status::Memory),
    }
}

// The bytes of the words.
fn byte_words(alloc: Global, words: &[String]) -> Result<Row<Row<u8>>, AllocError>
    ensures { IfOk result (λ list. list ≡ map string_bytes words.now) }
{
    let mut list = Row::new(alloc);
    for word in words {
        list.push(Row::from_slice(alloc, word.as_bytes())?)?;
    }
    Ok(list)
}

// The answer to words of bytes.
fn answer<S: Source, K: Sink>(
    alloc: Global,
    words: &[Row<u8>],
    source: &mut S,
    sink: &mut K,
) -> Status
    ensures answers { Answers
        (record {
          left = S.remaining source.old;
          left_after = S.remaining source.new;
          faults = S.fault_count source.old;
          faults_after = S.fault_count source.new;
        })
        words.now result (K.contents sink.old) (K.contents sink.new) (K.fault_count sink.old) (K.fault_count sink.new) }
    ensures unread { (IsBatchWord words.now → ⊥) → source.new ≡ source.old }
{
    if is_batch(words) {
        return answer_batch(alloc, source, sink);
    }
    match reply_to(alloc, words) {
        Ok(reply) => deliver(sink, reply.text.as_slice(), reply.status),
        Err(_) => deliver(sink, b"memory\n", Status::Memory),
    }
}
