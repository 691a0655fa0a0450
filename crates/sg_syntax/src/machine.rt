//! A machine with one stack of symbols, stepped byte by byte.
ghost use Rattle.std.specs.Prelude.{◌≡◌, ◌++◌, ◌-◌, ◌<◌, ◌^◌, [], ◌∷◌, false, length, IsTrue, OnOk, IfOk, IfErr};
ghost use Rattle.sg_syntax.specs.Table.{text as start};
ghost use Rattle.sg_spec.specs.Syntax.{at_start, after_byte};
ghost use Rattle.sg_syntax.specs.Stack.{lead, opened, acted, accepts, next, finished};
ghost use Rattle.sg_syntax.specs.Drafts.{placed_of, capped_action};
ghost use Rattle.sg_syntax.specs.Machines.{topped, stack_of, state_of, Advances, HasCappedTree, IsParseFault};

use crate::draft::Draft;
use crate::fault::SyntaxFault;
use crate::node::Node;
use crate::symbol::Symbol;
use crate::ways::way;
use std::alloc::{AllocError, Global};

/// The tree of a text, with its places. Errors: the place at which the text stops being one, and out of memory.
pub fn parse(alloc: Global, text: &[u8]) -> Result<Box<Node>, SyntaxFault>
    requires { length text.now < 2 ^ 32 }
    ensures node { IfOk result (λ t. HasCappedTree text.now (placed_of t.value)) }
    ensures fault { IfErr result (λ e. IsParseFault text.now e) }
{
    let mut machine = Machine::new(alloc)?;
    for i in 0..text.len() {
        if !machine.advance(alloc, text[i])? {
            return Err(SyntaxFault::Syntax { at: i as u32 });
        }
    }
    if machine.finish(alloc)? {
        let tree = machine.draft.pop_tree(alloc)?;
        Ok(tree)
    } else {
        Err(SyntaxFault::Syntax {
            at: text.len() as u32,
        })
    }
}

/// The parts that are still to come, the next one last, and what was made so far.
#[derive(Drop)]
pub struct Machine {
    stack: Vec<Symbol>,
    draft: Draft,
}

impl Machine {
    /// Before the first byte of a text.
    pub fn new(alloc: Global) -> Result<Machine, AllocError>
        ensures stack { IfOk result (λ m. stack_of m ≡ start ∷ []) }
        ensures state { IfOk result (λ m. state_of m ≡ at_start) }
    {
        let mut stack = Vec::new(alloc);
        stack.push(Symbol::Text)?;
        Ok(Machine {
            stack,
            draft: Draft::new(alloc),
        })
    }

    /// Opens parts and does actions until a byte stands on top, and takes it off; nothing, where nothing is left.
    fn open(&mut self, alloc: Global, byte: u8) -> Result<Option<(u8, u8)>, AllocError>
        ensures stack { IfOk result (λ top. opened (lead (stack_of self.old)) byte (stack_of self.old) ≡ topped top (stack_of self.new)) }
        ensures state { OnOk result (state_of self.new ≡ acted capped_action (lead (stack_of self.old)) byte (stack_of self.old) (state_of self.old)) }
    {
        while let Some(part) = self.stack.pop() {
            match part {
                Symbol::Span(low, more) => return Ok(Some((low, more))),
                Symbol::Act(action) => self.draft.act(alloc, action)?,
                _ => put(&mut self.stack, way(part, byte))?,
            }
        }
        Ok(None)
    }

    /// Takes a byte. False where no text goes on with it.
    fn advance(&mut self, alloc: Global, byte: u8) -> Result<bool, AllocError>
        requires { (state_of self.old).place < 2 ^ 32 - 1 }
        ensures test { IfOk result (λ taken. taken ≡ accepts byte (stack_of self.old)) }
        ensures taken { IfOk result (λ taken. IsTrue taken → Advances byte (stack_of self.old) (state_of self.old) (stack_of self.new) (state_of self.new)) }
    {
        match self.open(alloc, byte)? {
            Some((low, more)) => {
                let taken = low <= byte && byte - low <= more;
                if taken {
                    self.draft.read(byte);
                }
                Ok(taken)
            }
            None => Ok(false),
        }
    }

    /// Does the actions that are left at the end. False where the text only breaks off.
    fn finish(&mut self, alloc: Global) -> Result<bool, AllocError>
        ensures whole { IfOk result (λ whole. IsTrue whole → opened (lead (stack_of self.old)) 0 (stack_of self.old) ≡ []) }
        ensures broken { IfOk result (λ whole. whole ≡ false → opened (lead (stack_of self.old)) 0 (stack_of self.old) ≡ [] → ⊥) }
        ensures state { OnOk result (state_of self.new ≡ finished capped_action (stack_of self.old) (state_of self.old)) }
    {
        match self.open(alloc, 0)? {
            Some(_) => Ok(false),
            None => Ok(true),
        }
    }
}

/// Puts these parts on top.
fn put(stack: &mut Vec<Symbol>, parts: &[Symbol]) -> Result<(), AllocError>
    ensures { OnOk result (stack.new.items ≡ stack.old.items ++ parts.now) }
{
    stack.extend_from_slice(parts)
}
