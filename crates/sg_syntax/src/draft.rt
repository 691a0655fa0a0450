//! Where reading stands: the marks, numbers and trees that were made so far.
ghost use Rattle.std.specs.Prelude.{◌≡◌, ◌+◌, ◌-◌, ◌*◌, ◌^◌, ◌<◌, [], min, IfOk, OnOk, Some, None};
ghost use Rattle.sg_spec.specs.Syntax.{number, at_start, after_byte, top_spot, top_tree};
ghost use Rattle.sg_spec.specs.Grammar.{mark, letter, minus_sign, begin_number, digit, use_number, use_name, negate, add_up, subtract, multiply, divide, raise, make_sum, make_product, make_harmonic, make_harmonic_of_order, make_factorial, make_binomial, make_power};
ghost use Rattle.sg_syntax.specs.Drafts.{value_of, mark_spot, numeral_spot, placed_of, draft_of, capped_action, with_mark, without_mark, with_number, without_number, with_tree, without_tree, without_head, IsHead};
ghost use Rattle.sg_syntax.specs.Parts.{action_of};

use crate::node::{Head, Mark, Node, Numeral};
use crate::symbol::Action;
use std::alloc::{AllocError, Global};

/// The place of the next byte, the last byte, and the marks, numbers and trees that no tree holds yet; the newest stand last.
#[derive(Drop)]
pub struct Draft {
    place: u32,
    last: u8,
    marks: Vec<Mark>,
    numbers: Vec<Numeral>,
    trees: Vec<Box<Node>>,
}

impl Draft {
    /// Nothing is read yet.
    pub fn new(alloc: Global) -> Draft
        ensures { draft_of result ≡ at_start }
    {
        Draft {
            place: 0,
            last: 0,
            marks: Vec::new(alloc),
            numbers: Vec::new(alloc),
            trees: Vec::new(alloc),
        }
    }

    /// This byte is read.
    pub fn read(&mut self, byte: u8)
        requires { (draft_of self.old).place < 2 ^ 32 - 1 }
        ensures { draft_of self.new ≡ after_byte byte (draft_of self.old) }
    {
        self.place += 1;
        self.last = byte;
    }

    fn push_mark(&mut self, m: Mark) -> Result<(), AllocError>
        ensures { OnOk result (draft_of self.new ≡ with_mark (mark_spot m) (draft_of self.old)) }
    {
        self.marks.push(m)?;
        Ok(())
    }

    fn push_number(&mut self, n: Numeral) -> Result<(), AllocError>
        ensures { OnOk result (draft_of self.new ≡ with_number (numeral_spot n) (draft_of self.old)) }
    {
        self.numbers.push(n)?;
        Ok(())
    }

    fn push_tree(&mut self, alloc: Global, t: Node) -> Result<(), AllocError>
        ensures { OnOk result (draft_of self.new ≡ with_tree (placed_of t) (draft_of self.old)) }
    {
        let t = Box::new(alloc, t)?;
        self.trees.push(t)?;
        Ok(())
    }

    fn pop_mark(&mut self) -> Mark
        ensures newest { mark_spot result ≡ top_spot (draft_of self.old).marks }
        ensures others { draft_of self.new ≡ without_mark (draft_of self.old) }
    {
        match self.marks.pop() {
            Some(m) => m,
            None => Mark { at: 0, value: 0 },
        }
    }

    fn pop_number(&mut self) -> Numeral
        ensures newest { numeral_spot result ≡ top_spot (draft_of self.old).numbers }
        ensures others { draft_of self.new ≡ without_number (draft_of self.old) }
    {
        match self.numbers.pop() {
            Some(n) => n,
            None => Numeral {
                at: 0,
                value: Some(0),
            },
        }
    }

    /// The newest tree.
    pub fn pop_tree(&mut self, alloc: Global) -> Result<Box<Node>, AllocError>
        ensures newest { IfOk result (λ t. placed_of t.value ≡ top_tree (draft_of self.old).trees) }
        ensures others { OnOk result (draft_of self.new ≡ without_tree (draft_of self.old)) }
    {
        match self.trees.pop() {
            Some(t) => Ok(t),
            None => no_tree(alloc),
        }
    }

    fn set_mark(&mut self, value: u8) -> Result<(), AllocError>
        ensures { OnOk result (draft_of self.new ≡ with_mark (record { place = (top_spot (draft_of self.old).marks).place; value = value })
            (without_mark (draft_of self.old))) }
    {
        let m = self.pop_mark();
        self.push_mark(Mark { at: m.at, value })
    }

    fn mark(&mut self) -> Result<(), AllocError>
        ensures { OnOk result (draft_of self.new ≡ capped_action mark (draft_of self.old)) }
    {
        self.push_mark(Mark {
            at: self.place,
            value: 0,
        })
    }

    fn letter(&mut self) -> Result<(), AllocError>
        ensures { OnOk result (draft_of self.new ≡ capped_action letter (draft_of self.old)) }
    {
        self.set_mark(self.last)
    }

    fn minus_sign(&mut self) -> Result<(), AllocError>
        ensures { OnOk result (draft_of self.new ≡ capped_action minus_sign (draft_of self.old)) }
    {
        self.set_mark(1)
    }

    fn begin_number(&mut self) -> Result<(), AllocError>
        ensures { OnOk result (draft_of self.new ≡ capped_action begin_number (draft_of self.old)) }
    {
        self.push_number(Numeral {
            at: self.place,
            value: Some(0),
        })
    }

    fn digit(&mut self) -> Result<(), AllocError>
        ensures { OnOk result (draft_of self.new ≡ capped_action digit (draft_of self.old)) }
    {
        let n = self.pop_number();
        let value = one_more_digit(n.value, self.last.saturating_sub(b'0'));
        self.push_number(Numeral { at: n.at, value })
    }

    fn use_number(&mut self, alloc: Global) -> Result<(), AllocError>
        ensures { OnOk result (draft_of self.new ≡ capped_action use_number (draft_of self.old)) }
    {
        let n = self.pop_number();
        let tree = number_tree(alloc, n)?;
        self.push_tree(alloc, tree)
    }

    fn use_name(&mut self, alloc: Global) -> Result<(), AllocError>
        ensures { OnOk result (draft_of self.new ≡ capped_action use_name (draft_of self.old)) }
    {
        let m = self.pop_mark();
        self.push_tree(alloc, Node::Named(m))
    }

    fn negate(&mut self, alloc: Global) -> Result<(), AllocError>
        ensures { OnOk result (draft_of self.new ≡ capped_action negate (draft_of self.old)) }
    {
        let x = self.pop_tree(alloc)?;
        self.push_tree(alloc, Node::Negated(x))
    }

    fn add_up(&mut self, alloc: Global) -> Result<(), AllocError>
        ensures { OnOk result (draft_of self.new ≡ capped_action add_up (draft_of self.old)) }
    {
        let y = self.pop_tree(alloc)?;
        let x = self.pop_tree(alloc)?;
        self.push_tree(alloc, Node::Added(x, y))
    }

    fn subtract(&mut self, alloc: Global) -> Result<(), AllocError>
        ensures { OnOk result (draft_of self.new ≡ capped_action subtract (draft_of self.old)) }
    {
        let y = self.pop_tree(alloc)?;
        let x = self.pop_tree(alloc)?;
        self.push_tree(alloc, Node::Subtracted(x, y))
    }

    fn multiply(&mut self, alloc: Global) -> Result<(), AllocError>
        ensures { OnOk result (draft_of self.new ≡ capped_action multiply (draft_of self.old)) }
    {
        let y = self.pop_tree(alloc)?;
        let x = self.pop_tree(alloc)?;
        self.push_tree(alloc, Node::Multiplied(x, y))
    }

    fn divide(&mut self, alloc: Global) -> Result<(), AllocError>
        ensures { OnOk result (draft_of self.new ≡ capped_action divide (draft_of self.old)) }
    {
        let place = self.pop_mark();
        let y = self.pop_tree(alloc)?;
        let x = self.pop_tree(alloc)?;
        self.push_tree(alloc, Node::Divided(x, place, y))
    }

    fn raise(&mut self, alloc: Global) -> Result<(), AllocError>
        ensures { OnOk result (draft_of self.new ≡ capped_action raise (draft_of self.old)) }
    {
        let n = Box::new(alloc, self.pop_number())?;
        let x = self.pop_tree(alloc)?;
        self.push_tree(alloc, Node::Raised(x, n))
    }

    fn pop_head(&mut self) -> Head
        ensures head { IsHead (draft_of self.old) result }
        ensures others { draft_of self.new ≡ without_head (draft_of self.old) }
    {
        let upper = self.pop_mark();
        let sign = self.pop_mark();
        let bound = self.pop_mark();
        let call = self.pop_mark();
        let lower = self.pop_number();
        Head {
            call,
            bound,
            sign,
            lower,
            upper,
        }
    }

    fn make_sum(&mut self, alloc: Global) -> Result<(), AllocError>
        ensures { OnOk result (draft_of self.new ≡ capped_action make_sum (draft_of self.old)) }
    {
        let head = Box::new(alloc, self.pop_head())?;
        let body = self.pop_tree(alloc)?;
        self.push_tree(alloc, Node::SumCall(head, body))
    }

    fn make_product(&mut self, alloc: Global) -> Result<(), AllocError>
        ensures { OnOk result (draft_of self.new ≡ capped_action make_product (draft_of self.old)) }
    {
        let head = Box::new(alloc, self.pop_head())?;
        let body = self.pop_tree(alloc)?;
        self.push_tree(alloc, Node::ProductCall(head, body))
    }

    fn make_harmonic(&mut self, alloc: Global) -> Result<(), AllocError>
        ensures { OnOk result (draft_of self.new ≡ capped_action make_harmonic (draft_of self.old)) }
    {
        let v = self.pop_mark();
        let call = self.pop_mark();
        self.push_tree(alloc, Node::Harmonic(call, v))
    }

    fn make_harmonic_of_order(&mut self, alloc: Global) -> Result<(), AllocError>
        ensures { OnOk result (draft_of self.new ≡ capped_action make_harmonic_of_order (draft_of self.old)) }
    {
        let order = Box::new(alloc, self.pop_number())?;
        let v = self.pop_mark();
        let call = self.pop_mark();
        self.push_tree(alloc, Node::HarmonicOfOrder(call, v, order))
    }

    fn make_factorial(&mut self, alloc: Global) -> Result<(), AllocError>
        ensures { OnOk result (draft_of self.new ≡ capped_action make_factorial (draft_of self.old)) }
    {
        let v = self.pop_mark();
        let call = self.pop_mark();
        self.push_tree(alloc, Node::Factorial(call, v))
    }

    fn make_binomial(&mut self, alloc: Global) -> Result<(), AllocError>
        ensures { OnOk result (draft_of self.new ≡ capped_action make_binomial (draft_of self.old)) }
    {
        let v = self.pop_mark();
        let place = self.pop_mark();
        let call = self.pop_mark();
        let x = self.pop_tree(alloc)?;
        self.push_tree(alloc, Node::Binomial(call, place, x, v))
    }

    fn make_power(&mut self, alloc: Global) -> Result<(), AllocError>
        ensures { OnOk result (draft_of self.new ≡ capped_action make_power (draft_of self.old)) }
    {
        let v = self.pop_mark();
        let call = self.pop_mark();
        let x = self.pop_tree(alloc)?;
        self.push_tree(alloc, Node::ConstantPower(call, x, v))
    }

    /// The action is done. The error is out of memory.
    pub fn act(&mut self, alloc: Global, action: Action) -> Result<(), AllocError>
        ensures { OnOk result (draft_of self.new ≡ capped_action (action_of action) (draft_of self.old)) }
    {
        match action {
            Action::Mark => self.mark(),
            Action::Letter => self.letter(),
            Action::MinusSign => self.minus_sign(),
            Action::BeginNumber => self.begin_number(),
            Action::Digit => self.digit(),
            Action::UseNumber => self.use_number(alloc),
            Action::UseName => self.use_name(alloc),
            Action::Negate => self.negate(alloc),
            Action::AddUp => self.add_up(alloc),
            Action::Subtract => self.subtract(alloc),
            Action::Multiply => self.multiply(alloc),
            Action::Divide => self.divide(alloc),
            Action::Raise => self.raise(alloc),
            Action::MakeSum => self.make_sum(alloc),
            Action::MakeProduct => self.make_product(alloc),
            Action::MakeHarmonic => self.make_harmonic(alloc),
            Action::MakeHarmonicOfOrder => self.make_harmonic_of_order(alloc),
            Action::MakeFactorial => self.make_factorial(alloc),
            Action::MakeBinomial => self.make_binomial(alloc),
            Action::MakePower => self.make_power(alloc),
        }
    }
}

/// What stands for the newest tree where there is none.
#[inline(never)]
fn no_tree(alloc: Global) -> Result<Box<Node>, AllocError>
    ensures { IfOk result (λ t. placed_of t.value ≡ top_tree []) }
{
    Ok(Box::new(alloc, Node::Number(0, 0))?)
}

fn one_more_digit(value: Option<u128>, digit: u8) -> Option<u128>
    ensures { value_of result ≡ min (value_of value * 10 + digit) (2 ^ 128) }
{
    match value {
        Some(v) => match v.checked_mul(10) {
            Some(tens) => tens.checked_add(digit as u128),
            None => None,
        },
        None => None,
    }
}

/// The tree of a number.
#[inline(never)]
fn number_tree(alloc: Global, n: Numeral) -> Result<Node, AllocError>
    ensures { IfOk result (λ t. placed_of t ≡ number (numeral_spot n)) }
{
    let small = match n.value {
        Some(v) => u64::try_from(v).ok(),
        None => None,
    };
    match small {
        Some(v) => Ok(Node::Number(n.at, v)),
        None => Ok(Node::LargeNumber(Box::new(alloc, n)?)),
    }
}
