ghost use Rattle.std.specs.Prelude.{◌≡◌, ◌++◌, ℤ, IfOk, MatchOption, None, Some, codes};
ghost use Rattle.sg_expr.specs.Tree.{tree_of};
ghost use Rattle.sg_num.specs.Value.{fraction};
ghost use Rattle.sg_text.specs.RationalText.{rational_text};
ghost use Rattle.sg_value.specs.Answer.{IsValue};
ghost use Rattle.sg_top.specs.Taking.{IsEvaluated, IsValueLine};

use crate::Status;
use crate::lines::rational_line;
use crate::reply::Reply;
use sg_expr::Expr;
use sg_num::Rat;
use sg_value::value_at;
use std::alloc::{AllocError, Global};

/// The answer to a command that asks for the value of an expression for a parameter and a variable. The error is out of
/// memory.
pub fn value_reply(alloc: Global, e: &Expr, n: i64, k: i64) -> Result<Reply, AllocError>
    ensures { IfOk result (λ r. IsEvaluated (tree_of e.now) n k r.status r.text.items) }
{
    match value_at(e, n, k) {
        Ok(value) => {
            let reply = value_line(alloc, value)?;
            Ok(reply)
        }
        Err(wide) => {
            let reply = Reply::wide(alloc, wide)?;
            Ok(reply)
        }
    }
}

// The line of a value, or of no value.
fn value_line(alloc: Global, value: Option<Rat>) -> Result<Reply, AllocError>
    ensures { IfOk result (λ r. IsValueLine value r.status r.text.items) }
{
    match value {
        Some(number) => {
            let text = rational_line(alloc, number)?;
            Ok(Reply::done(text))
        }
        None => Reply::fixed(alloc, b"no value\n", Status::No),
    }
}
