ghost use Rattle.std.specs.Prelude.{◌≡◌, ◌≤◌, OnOk, OnErr};
ghost use Rattle.sg_io.specs.Bytes.{Appends, Rose};
ghost use Rattle.sg_top.specs.Answer.{Tells, IsFrontOf};
ghost use Rattle.sg_top.specs.Ending.{Ends, IsFixed};

use crate::Status;
use sg_io::{Failed, Sink};

/// Writes the text of an answer with a status, which it answers; or the status of a write fault.
pub fn deliver<K: Sink>(sink: &mut K, text: &[u8], status: Status) -> Status
    ensures { Ends (IsFixed status text.now) result (K.contents sink.old) (K.contents sink.new) (K.fault_count sink.old) (K.fault_count sink.new) }
{
    match send(sink, text) {
        Ok(()) => status,
        Err(_) => Status::WriteFault,
    }
}

/// Writes all of the text. After `Failed` first bytes of it were appended.
pub fn send<K: Sink>(sink: &mut K, text: &[u8]) -> Result<(), Failed>
    ensures ok { OnOk result (Appends (K.contents sink.old) (K.contents sink.new) text.now) }
    ensures part { OnErr result (Tells (IsFrontOf (λ whole. whole ≡ text.now)) (K.contents sink.old) (K.contents sink.new)) }
    ensures cause { OnErr result (Rose (K.fault_count sink.old) (K.fault_count sink.new)) }
    ensures count { K.fault_count sink.old ≤ K.fault_count sink.new }
{
    let mut sent = 0;
    while sent < text.len() {
        match sink.write(&text[sent..]) {
            Ok(n) => sent += n,
            Err(fault) => return Err(fault),
        }
    }
    Ok(())
}
