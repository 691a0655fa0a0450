//! For each part of the grammar the way that the next byte tells, its last part first. The ways of rare parts stay calls: else
//! the machine works each of them out for every byte.
ghost use Rattle.std.specs.Prelude.{◌≡◌};
ghost use Rattle.sg_syntax.specs.Table.{blanks, expr, more_terms, more_factors, exponent, atom, worded, order, int, const, divisor, more_digits, after_s, after_p, after_f, after_b};
ghost use Rattle.sg_syntax.specs.Stack.{predict};
ghost use Rattle.sg_syntax.specs.Parts.{part_of, parts_of};

use crate::symbol::Action;
use crate::symbol::Symbol::{self, *};

/// The way of this part before this byte; at the end of a text the way before the byte 0.
pub fn way(part: Symbol, byte: u8) -> &'static [Symbol]
    ensures { parts_of result.now ≡ predict (part_of part) byte }
{
    match part {
        Span(_, _) | Act(_) => &[],
        Blanks => blanks_way(byte),
        Text => &[Expr, Blanks],
        Expr => expr_way(byte),
        MoreTerms => more_terms_way(byte),
        Term => &[MoreFactors, Factor],
        MoreFactors => more_factors_way(byte),
        Factor => &[Exponent, Atom],
        Exponent => exponent_way(byte),
        Atom => atom_way(byte),
        Worded => worded_way(byte),
        Variable => &[
            Blanks,
            Act(Action::UseName),
            Act(Action::Letter),
            Span(b'a', 25),
        ],
        BoundsAndBody => &[
            Blanks,
            Span(b')', 0),
            Expr,
            Blanks,
            Span(b',', 0),
            Name,
            Blanks,
            Span(b',', 0),
            Int,
            Act(Action::Mark),
            Blanks,
            Span(b',', 0),
            Name,
            Blanks,
            Span(b'(', 0),
        ],
        NameAndOrder => &[Blanks, Span(b')', 0), Order, Name, Blanks, Span(b'(', 0)],
        OneName => &[Blanks, Span(b')', 0), Name, Blanks, Span(b'(', 0)],
        ExprAndName => &[
            Blanks,
            Span(b')', 0),
            Name,
            Blanks,
            Span(b',', 0),
            Expr,
            Act(Action::Mark),
            Blanks,
            Span(b'(', 0),
        ],
        ConstAndName => &[
            Blanks,
            Span(b')', 0),
            Name,
            Blanks,
            Span(b',', 0),
            Const,
            Blanks,
            Span(b'(', 0),
        ],
        Order => order_way(byte),
        Int => int_way(byte),
        Const => const_way(byte),
        Divisor => divisor_way(byte),
        Name => &[
            Blanks,
            Act(Action::Letter),
            Span(b'a', 25),
            Act(Action::Mark),
        ],
        Digits => &[
            Blanks,
            MoreDigits,
            Act(Action::Digit),
            Span(b'0', 9),
            Act(Action::BeginNumber),
        ],
        MoreDigits => more_digits_way(byte),
        AfterS => after_s_way(byte),
        AfterP => after_p_way(byte),
        AfterF => after_f_way(byte),
        AfterB => after_b_way(byte),
    }
}

fn blanks_way(byte: u8) -> &'static [Symbol]
    ensures { parts_of result.now ≡ predict blanks byte }
{
    match byte {
        b' ' => &[Blanks, Span(b' ', 0)],
        _ => &[],
    }
}

fn expr_way(byte: u8) -> &'static [Symbol]
    ensures { parts_of result.now ≡ predict expr byte }
{
    match byte {
        b'-' => &[MoreTerms, Act(Action::Negate), Term, Blanks, Span(b'-', 0)],
        _ => &[MoreTerms, Term],
    }
}

fn more_terms_way(byte: u8) -> &'static [Symbol]
    ensures { parts_of result.now ≡ predict more_terms byte }
{
    match byte {
        b'+' => &[MoreTerms, Act(Action::AddUp), Term, Blanks, Span(b'+', 0)],
        b'-' => &[
            MoreTerms,
            Act(Action::Subtract),
            Term,
            Blanks,
            Span(b'-', 0),
        ],
        _ => &[],
    }
}

fn more_factors_way(byte: u8) -> &'static [Symbol]
    ensures { parts_of result.now ≡ predict more_factors byte }
{
    match byte {
        b'*' => &[
            MoreFactors,
            Act(Action::Multiply),
            Factor,
            Blanks,
            Span(b'*', 0),
        ],
        b'/' => &[
            MoreFactors,
            Act(Action::Divide),
            Factor,
            Act(Action::Mark),
            Blanks,
            Span(b'/', 0),
        ],
        _ => &[],
    }
}

fn exponent_way(byte: u8) -> &'static [Symbol]
    ensures { parts_of result.now ≡ predict exponent byte }
{
    match byte {
        b'^' => &[Act(Action::Raise), Digits, Blanks, Span(b'^', 0)],
        _ => &[],
    }
}

fn atom_way(byte: u8) -> &'static [Symbol]
    ensures { parts_of result.now ≡ predict atom byte }
{
    match byte {
        b'0'..=b'9' => &[Act(Action::UseNumber), Digits],
        b'(' => &[Blanks, Span(b')', 0), Expr, Blanks, Span(b'(', 0)],
        _ => &[Worded, Act(Action::Mark)],
    }
}

#[inline(never)]
fn worded_way(byte: u8) -> &'static [Symbol]
    ensures { parts_of result.now ≡ predict worded byte }
{
    match byte {
        b's' => &[AfterS, Span(b's', 0)],
        b'p' => &[AfterP, Span(b'p', 0)],
        b'f' => &[AfterF, Span(b'f', 0)],
        b'b' => &[AfterB, Span(b'b', 0)],
        b'H' => &[NameAndOrder, Blanks, Span(b'H', 0)],
        _ => &[
            Blanks,
            Act(Action::UseName),
            Act(Action::Letter),
            Span(b'a', 25),
        ],
    }
}

#[inline(never)]
fn order_way(byte: u8) -> &'static [Symbol]
    ensures { parts_of result.now ≡ predict order byte }
{
    match byte {
        b',' => &[
            Act(Action::MakeHarmonicOfOrder),
            Digits,
            Blanks,
            Span(b',', 0),
        ],
        _ => &[Act(Action::MakeHarmonic)],
    }
}

#[inline(never)]
fn int_way(byte: u8) -> &'static [Symbol]
    ensures { parts_of result.now ≡ predict int byte }
{
    match byte {
        b'-' => &[Digits, Act(Action::MinusSign), Blanks, Span(b'-', 0)],
        _ => &[Digits],
    }
}

#[inline(never)]
fn const_way(byte: u8) -> &'static [Symbol]
    ensures { parts_of result.now ≡ predict const byte }
{
    match byte {
        b'-' => &[
            Act(Action::Negate),
            Divisor,
            Act(Action::UseNumber),
            Digits,
            Blanks,
            Span(b'-', 0),
        ],
        _ => &[Divisor, Act(Action::UseNumber), Digits],
    }
}

#[inline(never)]
fn divisor_way(byte: u8) -> &'static [Symbol]
    ensures { parts_of result.now ≡ predict divisor byte }
{
    match byte {
        b'/' => &[
            Act(Action::Divide),
            Act(Action::UseNumber),
            Digits,
            Act(Action::Mark),
            Blanks,
            Span(b'/', 0),
        ],
        _ => &[],
    }
}

fn more_digits_way(byte: u8) -> &'static [Symbol]
    ensures { parts_of result.now ≡ predict more_digits byte }
{
    match byte {
        b'0'..=b'9' => &[MoreDigits, Act(Action::Digit), Span(b'0', 9)],
        _ => &[],
    }
}

#[inline(never)]
fn after_s_way(byte: u8) -> &'static [Symbol]
    ensures { parts_of result.now ≡ predict after_s byte }
{
    match byte {
        b'u' => &[
            Act(Action::MakeSum),
            BoundsAndBody,
            Blanks,
            Span(b'm', 0),
            Span(b'u', 0),
        ],
        _ => &[Blanks, Act(Action::UseName), Act(Action::Letter)],
    }
}

#[inline(never)]
fn after_p_way(byte: u8) -> &'static [Symbol]
    ensures { parts_of result.now ≡ predict after_p byte }
{
    match byte {
        b'r' => &[
            Act(Action::MakeProduct),
            BoundsAndBody,
            Blanks,
            Span(b'd', 0),
            Span(b'o', 0),
            Span(b'r', 0),
        ],
        b'o' => &[
            Act(Action::MakePower),
            ConstAndName,
            Blanks,
            Span(b'w', 0),
            Span(b'o', 0),
        ],
        _ => &[Blanks, Act(Action::UseName), Act(Action::Letter)],
    }
}

#[inline(never)]
fn after_f_way(byte: u8) -> &'static [Symbol]
    ensures { parts_of result.now ≡ predict after_f byte }
{
    match byte {
        b'a' => &[
            Act(Action::MakeFactorial),
            OneName,
            Blanks,
            Span(b't', 0),
            Span(b'c', 0),
            Span(b'a', 0),
        ],
        _ => &[Blanks, Act(Action::UseName), Act(Action::Letter)],
    }
}

#[inline(never)]
fn after_b_way(byte: u8) -> &'static [Symbol]
    ensures { parts_of result.now ≡ predict after_b byte }
{
    match byte {
        b'i' => &[
            Act(Action::MakeBinomial),
            ExprAndName,
            Blanks,
            Span(b'm', 0),
            Span(b'o', 0),
            Span(b'n', 0),
            Span(b'i', 0),
        ],
        _ => &[Blanks, Act(Action::UseName), Act(Action::Letter)],
    }
}
