ghost use Rattle.std.specs.Prelude.{◌≡◌, ◌∷◌, None, IfOk, length, map};
ghost use Rattle.sg_expr.specs.Tree.{tree_of};
ghost use Rattle.sg_spec.specs.Limits.{counted};
ghost use Rattle.sg_words.specs.Words.{IsBatchWord, HasTexts};
ghost use Rattle.sg_top.specs.Answer.{IsReply, IsCountedReply, IsLineAnswer, Input, IsAnswer};
ghost use Rattle.sg_top.specs.Taking.{AreInForm, IsLimited};

use crate::Status;
use crate::forms::{check_reply, simplify_reply};
use crate::reply::Reply;
use crate::samples::gen_reply;
use crate::sums::sum_reply;
use crate::taken::{Taken, take};
use crate::tower::tower_reply;
use crate::values::value_reply;
use sg_expr::Expr;
use sg_num::Row;
use sg_words::{Command, command_of, gen_of};
use std::alloc::{AllocError, Global};

/// The answer to words that don't ask for a batch. The error is out of memory.
pub fn reply_to(alloc: Global, words: &[Row<u8>]) -> Result<Reply, AllocError>
    requires { IsBatchWord words.now → ⊥ }
    ensures { IfOk result (λ r. (input : Input) → IsAnswer input words.now r.status r.text.items) }
{
    if let Some((command, first, others)) = command_of(words) {
        let reply = command_reply(alloc, command, first, others)?;
        return Ok(reply);
    }
    match gen_of(words) {
        Some((seed, count)) => {
            let reply = gen_reply(alloc, seed, count)?;
            Ok(reply)
        }
        None => Reply::fixed(alloc, b"usage\n", Status::Usage),
    }
}

/// The answer to the words of a line of a batch. The error is out of memory.
pub fn line_reply(alloc: Global, words: &[Row<u8>]) -> Result<Reply, AllocError>
    ensures { IfOk result (λ r. IsLineAnswer words.now r.status r.text.items) }
{
    if words.is_empty() {
        return Ok(Reply::done(Vec::new(alloc)));
    }
    match command_of(words) {
        Some((command, first, others)) => {
            let reply = command_reply(alloc, command, first, others)?;
            Ok(reply)
        }
        None => Reply::fixed(alloc, b"usage\n", Status::Usage),
    }
}

// The answer to a command for its texts, the first one and the further ones.
fn command_reply(
    alloc: Global,
    command: Command,
    first: &Row<u8>,
    others: &[Row<u8>],
) -> Result<Reply, AllocError>
    requires texts { HasTexts command (length (first.now ∷ others.now)) }
    requires limit { IsLimited command }
    ensures { IfOk result (λ r. IsReply command (first.now ∷ others.now) r.status r.text.items) }
{
    match take(alloc, command, first, others)? {
        Taken::Line(text) => Ok(Reply::refused(text)),
        Taken::Items(items) => {
            let reply = output(alloc, command, &items)?;
            Ok(reply)
        }
    }
}

/// The answer for expressions that keep the counted limits; a line a command. The error is out of memory.
pub fn output(alloc: Global, command: Command, items: &Row<Expr>) -> Result<Reply, AllocError>
    requires texts { HasTexts command (length items.now) }
    requires form { AreInForm command (map tree_of items.now) }
    requires kept { counted (map tree_of items.now) ≡ None }
    requires limit { IsLimited command }
    ensures { IfOk result (λ r. IsCountedReply command (map tree_of items.now) r.status r.text.items) }
{
    let e = items.get(0);
    match command {
        Command::Sum { lower } => {
            let reply = sum_reply(alloc, items, lower)?;
            Ok(reply)
        }
        Command::Tower => {
            let reply = tower_reply(alloc, items)?;
            Ok(reply)
        }
        Command::Simplify { lower } => {
            let reply = simplify_reply(alloc, items, lower)?;
            Ok(reply)
        }
        Command::Check { lower } => {
            let reply = check_reply(alloc, items, lower)?;
            Ok(reply)
        }
        Command::Value { point } => {
            let reply = value_reply(alloc, e, 0, point)?;
            Ok(reply)
        }
        Command::ValueAtParameter { parameter, point } => {
            let reply = value_reply(alloc, e, parameter, point)?;
            Ok(reply)
        }
    }
}
