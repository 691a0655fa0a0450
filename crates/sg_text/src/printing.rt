//! The printed form of expressions.
ghost use Rattle.std.specs.Prelude.{◌≡◌, ◌++◌, ◌∷◌, [], ◌<◌, ℕ, ℤ, List, false, get_or, IfOk, OnOk, decimal, unsigned_abs};
ghost use Rattle.sg_spec.specs.Syntax.{Placed};
ghost use Rattle.sg_spec.specs.Tree.{Tree, add, div, sum_from, prod_from};
ghost use Rattle.sg_spec.specs.Reading.{Bounds, Reads, IsRead};
ghost use Rattle.sg_spec.specs.Printing.{SparesBound, has_parameter, InForm, IsShort, KeepsBounds, HasFewest, NoBlank};
ghost use Rattle.sg_spec.specs.Shape.{is_constant_tree};
ghost use Rattle.sg_text.specs.Reads.{IsFree};
ghost use Rattle.sg_text.specs.PrintedText.{next_bound, sign_of, is_one, is_numeral, is_here, is_minus_here, power_order, harmonic_order, is_falling, is_quotient, body_form, product_form, written, written_sum, left_of, level_of, is_below, text_at, added_text, limit_text, call_text, plain, printed};
ghost use Rattle.sg_expr.specs.Tree.{tree_of};

use itoa::Buffer;
use sg_expr::Expr;
use sg_num::Row;
use std::alloc::{AllocError, Global};

/// The text of an expression in one or two letters: the first names the variable, the second the parameter, and bound names
/// are j and i in turn. It has no blanks, no parentheses that could be left out, and the shorthands wherever the tree is
/// exactly theirs. The tree has to be one that some text reads as. The error is out of memory.
pub fn print(alloc: Global, e: &Expr, free: &[u8]) -> Result<Row<u8>, AllocError>
    requires letters { IsFree free.now }
    requires apart { SparesBound free.now }
    requires form { InForm (has_parameter free.now) false (tree_of e.now) }
    ensures text { IfOk result (λ w. w ≡ printed free.now (tree_of e.now)) }
    ensures reads_back { IfOk result (λ w. Reads w free.now (tree_of e.now)) }
    ensures only { IfOk result (λ w. (f : Tree) → Reads w free.now f → f ≡ tree_of e.now) }
    ensures bounded { IfOk result (λ w. (bounds : Bounds) → KeepsBounds bounds w → IsRead bounds free.now w (tree_of e.now)) }
    ensures fewest { IfOk result (λ w. HasFewest w free.now (tree_of e.now)) }
    ensures no_blank { IfOk result (λ w. NoBlank w) }
{
    let out = print_plain(alloc, e, free)?;
    Ok(out)
}

// `print` without the clauses that follow from these.
fn print_plain(alloc: Global, e: &Expr, free: &[u8]) -> Result<Row<u8>, AllocError>
    ensures text { IfOk result (λ w. w ≡ printed free.now (tree_of e.now)) }
    ensures short { IfOk result (λ w. IsShort (tree_of e.now)) }
{
    let scope = Scope {
        variable: letter_at(free, 0),
        parameter: letter_at(free, 1),
        bound: b'j',
    };
    let mut out = Row::new(alloc);
    write(e, scope, &mut out)?;
    Ok(out)
}

// The letters of the variable and of the parameter, and the one that the next sum or product binds.
#[derive(Clone, Copy)]
struct Scope {
    variable: u8,
    parameter: u8,
    bound: u8,
}

impl Scope {
    // The scope of a body.
    fn inside(self) -> Scope
        ensures variable { result.variable ≡ self.bound }
        ensures parameter { result.parameter ≡ self.parameter }
        ensures bound { result.bound ≡ next_bound self.bound }
    {
        Scope {
            variable: self.bound,
            parameter: self.parameter,
            bound: if self.bound == b'j' { b'i' } else { b'j' },
        }
    }
}

// The letter at a place, or 0.
fn letter_at(free: &[u8], i: usize) -> u8
    ensures { result ≡ get_or free.now i 0 }
{
    match free.get(i) {
        Some(c) => *c,
        None => 0,
    }
}

// Writes a tree without parentheses around it.
#[cycle(write)]
fn write(e: &Expr, scope: Scope, out: &mut Row<u8>) -> Result<(), AllocError>
    ensures text { OnOk result (out.new ≡ out.old ++ plain (written scope.variable scope.parameter scope.bound (tree_of e.now))) }
    ensures short { OnOk result (IsShort (tree_of e.now)) }
{
    match e {
        Expr::Num(n) => push_number(out, n.unsigned_abs()),
        Expr::Here => out.push(scope.variable),
        Expr::Param => out.push(scope.parameter),
        Expr::Add(x, y) => {
            write(x, scope, out)?;
            write_added(y, scope, out)
        }
        Expr::Neg(x) => {
            out.push(b'-')?;
            write_at(x, Level::Term, scope, out)
        }
        Expr::Mul(x, y) => {
            write_at(x, Level::Term, scope, out)?;
            write_factor(y, b'*', scope, out)
        }
        Expr::Div(x, y) => {
            write_at(x, Level::Term, scope, out)?;
            write_factor(y, b'/', scope, out)
        }
        Expr::Pow(x, e) => {
            write_at(x, Level::Atom, scope, out)?;
            out.push(b'^')?;
            push_number(out, *e)
        }
        Expr::Sum { from, body } => write_sum(*from, body, scope, out),
        Expr::Prod { from, body } => write_product(*from, body, scope, out),
    }
}

fn push_number(out: &mut Row<u8>, n: u128) -> Result<(), AllocError>
    ensures { OnOk result (out.new ≡ out.old ++ decimal n) }
{
    let mut buffer = Buffer::new();
    out.extend_from_slice(buffer.format(n).as_bytes())
}

// Writes what follows the left operand of a sum.
#[cycle(write)]
fn write_added(e: &Expr, scope: Scope, out: &mut Row<u8>) -> Result<(), AllocError>
    ensures text { OnOk result (out.new ≡ out.old ++ added_text scope.variable scope.parameter scope.bound (tree_of e.now)) }
    ensures short { OnOk result (IsShort (tree_of e.now)) }
{
    match e {
        Expr::Neg(x) => {
            out.push(b'-')?;
            write_at(x, Level::Term, scope, out)
        }
        _ => {
            out.push(b'+')?;
            write_at(e, Level::Term, scope, out)
        }
    }
}

// Writes a tree at a place where the grammar has this level.
#[cycle(write)]
fn write_at(e: &Expr, wanted: Level, scope: Scope, out: &mut Row<u8>) -> Result<(), AllocError>
    ensures text { OnOk result (out.new ≡ out.old ++ text_at wanted (written scope.variable scope.parameter scope.bound (tree_of e.now))) }
    ensures short { OnOk result (IsShort (tree_of e.now)) }
{
    if is_below(level_of(e), wanted) {
        out.push(b'(')?;
        write(e, scope, out)?;
        out.push(b')')
    } else {
        write(e, scope, out)
    }
}

// A level of the grammar; each one holds those after it.
#[derive(Clone, Copy)]
enum Level {
    Sum,
    Term,
    Factor,
    Atom,
}

fn is_below(own: Level, wanted: Level) -> bool
    ensures { result ≡ is_below own wanted }
{
    match (own, wanted) {
        (Level::Sum, Level::Sum) => false,
        (Level::Sum, _) => true,
        (Level::Term, Level::Factor) => true,
        (Level::Term, Level::Atom) => true,
        (Level::Factor, Level::Atom) => true,
        _ => false,
    }
}

fn level_of(e: &Expr) -> Level
    ensures { (v p b : ℕ) → result ≡ level_of (written v p b (tree_of e.now)) }
{
    match e {
        Expr::Add(_, _) => Level::Sum,
        Expr::Neg(_) => Level::Sum,
        Expr::Mul(_, _) => Level::Term,
        Expr::Div(_, _) => Level::Term,
        Expr::Pow(_, _) => Level::Factor,
        Expr::Num(_) | Expr::Here | Expr::Param | Expr::Sum { .. } | Expr::Prod { .. } =>
            Level::Atom,
    }
}

// Writes a sign and the factor after it.
#[cycle(write)]
fn write_factor(e: &Expr, sign: u8, scope: Scope, out: &mut Row<u8>) -> Result<(), AllocError>
    ensures text { OnOk result (out.new ≡ out.old ++ sign ∷ text_at Level.Factor (written scope.variable scope.parameter scope.bound (tree_of e.now))) }
    ensures short { OnOk result (IsShort (tree_of e.now)) }
{
    out.push(sign)?;
    write_at(e, Level::Factor, scope, out)
}

#[cycle(write)]
fn write_sum(from: i64, body: &Expr, scope: Scope, out: &mut Row<u8>) -> Result<(), AllocError>
    ensures text { OnOk result (out.new ≡ out.old ++ plain (written scope.variable scope.parameter scope.bound (sum_from from (tree_of body.now)))) }
    ensures short { OnOk result (IsShort (tree_of body.now)) }
{
    let order = harmonic_order(from, body);
    if order == 0 {
        write_call(b"sum", from, body, scope, out)
    } else {
        write_harmonic(order, scope.variable, out)
    }
}

// r, where the sum is the harmonic one of the order r that has a shorthand, and 0 elsewhere.
fn harmonic_order(from: i64, body: &Expr) -> u128
    ensures { result ≡ harmonic_order from (tree_of body.now) }
{
    if from != 1 {
        return 0;
    }
    match body {
        Expr::Div(x, y) => if is_one(x) { power_order(y) } else { 0 },
        _ => 0,
    }
}

fn is_one(e: &Expr) -> bool
    ensures { result ≡ is_one (tree_of e.now) }
{
    match e {
        Expr::Num(n) => *n == 1,
        _ => false,
    }
}

fn power_order(e: &Expr) -> u128
    ensures { result ≡ power_order (tree_of e.now) }
{
    match e {
        Expr::Here => 1,
        Expr::Pow(x, r) => if is_here(x) && *r > 1 && *r < 33 {
            *r
        } else {
            0
        },
        _ => 0,
    }
}

fn is_here(e: &Expr) -> bool
    ensures { result ≡ is_here (tree_of e.now) }
{
    match e {
        Expr::Here => true,
        _ => false,
    }
}

// Writes a sum or a product in full.
#[cycle(write)]
fn write_call(
    word: &[u8],
    from: i64,
    body: &Expr,
    scope: Scope,
    out: &mut Row<u8>,
) -> Result<(), AllocError>
    ensures text { OnOk result (out.new ≡ out.old ++ (word.now ++ call_text scope.bound (sign_of from) (unsigned_abs from) scope.variable
        (plain (written scope.bound scope.parameter (next_bound scope.bound) (tree_of body.now))))) }
    ensures short { OnOk result (IsShort (tree_of body.now)) }
{
    push_head(word, from, scope, out)?;
    write(body, scope.inside(), out)?;
    out.push(b')')
}

// Writes what stands before the body of a sum or a product.
fn push_head(word: &[u8], from: i64, scope: Scope, out: &mut Row<u8>) -> Result<(), AllocError>
    ensures { OnOk result (out.new ≡ out.old ++ (word.now ++ (40 ∷ (scope.bound ∷ (44 ∷
        (limit_text (sign_of from) (unsigned_abs from) ++ (44 ∷ (scope.variable ∷ (44 ∷ []))))))))) }
{
    out.extend_from_slice(word)?;
    out.extend_from_slice(&[b'(', scope.bound, b','])?;
    push_limit(out, from)?;
    out.extend_from_slice(&[b',', scope.variable, b','])
}

fn push_limit(out: &mut Row<u8>, n: i64) -> Result<(), AllocError>
    ensures { OnOk result (out.new ≡ out.old ++ limit_text (sign_of n) (unsigned_abs n)) }
{
    let mut buffer = Buffer::new();
    out.extend_from_slice(buffer.format(n).as_bytes())
}

// Writes the sum of the reciprocals of the powers of this order.
fn write_harmonic(order: u128, variable: u8, out: &mut Row<u8>) -> Result<(), AllocError>
    requires { 0 < order }
    ensures { OnOk result ((bound : ℕ) (from : ℤ) (body : Placed) → out.new ≡ out.old ++ plain (written_sum variable bound from order body)) }
{
    out.extend_from_slice(b"H(")?;
    out.push(variable)?;
    if order > 1 {
        out.push(b',')?;
        push_number(out, order)?;
    }
    out.push(b')')
}

#[cycle(write)]
fn write_product(from: i64, body: &Expr, scope: Scope, out: &mut Row<u8>) -> Result<(), AllocError>
    ensures text { OnOk result (out.new ≡ out.old ++ plain (written scope.variable scope.parameter scope.bound (prod_from from (tree_of body.now)))) }
    ensures short { OnOk result (IsShort (tree_of body.now)) }
{
    match product_form(from, body) {
        ProductForm::Full => write_call(b"prod", from, body, scope, out),
        ProductForm::Factorial => {
            out.extend_from_slice(b"fact(")?;
            out.push(scope.variable)?;
            out.push(b')')
        }
        ProductForm::Binomial => {
            out.extend_from_slice(b"binom(")?;
            write_left(body, scope.inside(), out)?;
            push_name(scope.variable, out)
        }
        ProductForm::Power => {
            out.extend_from_slice(b"pow(")?;
            write(body, scope.inside(), out)?;
            push_name(scope.variable, out)
        }
    }
}

fn product_form(from: i64, body: &Expr) -> ProductForm
    ensures { result ≡ product_form from (tree_of body.now) }
{
    if from != 1 {
        return ProductForm::Full;
    }
    match body {
        Expr::Here => ProductForm::Factorial,
        Expr::Num(_) => ProductForm::Power,
        Expr::Neg(x) => if is_quotient(x) {
            ProductForm::Power
        } else {
            ProductForm::Full
        },
        Expr::Div(x, y) => quotient_form(x, y),
        _ => ProductForm::Full,
    }
}

// How a product is written: in full, or by a shorthand.
#[derive(Clone, Copy)]
enum ProductForm {
    Full,
    Factorial,
    Binomial,
    Power,
}

fn is_quotient(e: &Expr) -> bool
    ensures { result ≡ is_quotient (tree_of e.now) }
{
    match e {
        Expr::Num(_) => true,
        Expr::Div(x, y) => is_numeral(x) && is_numeral(y),
        _ => false,
    }
}

fn is_numeral(e: &Expr) -> bool
    ensures { result ≡ is_numeral (tree_of e.now) }
{
    match e {
        Expr::Num(_) => true,
        _ => false,
    }
}

fn quotient_form(x: &Expr, y: &Expr) -> ProductForm
    ensures { result ≡ body_form (div (tree_of x.now) (tree_of y.now)) }
{
    if is_numeral(x) && is_numeral(y) {
        ProductForm::Power
    } else if is_falling(x) && is_here(y) {
        ProductForm::Binomial
    } else {
        ProductForm::Full
    }
}

// Whether it is x + 1 - j for a constant x.
fn is_falling(e: &Expr) -> bool
    ensures { result ≡ is_falling (tree_of e.now) }
{
    match e {
        Expr::Add(left, right) => match &**left {
            Expr::Add(x, one) => is_one(one) && is_constant(x) && is_minus_here(right),
            _ => false,
        },
        _ => false,
    }
}

fn is_constant(e: &Expr) -> bool
    ensures { result ≡ is_constant_tree (tree_of e.now) }
{
    match e {
        Expr::Num(_) => true,
        Expr::Param => true,
        Expr::Add(x, y) => is_constant(x) && is_constant(y),
        Expr::Neg(x) => is_constant(x),
        Expr::Mul(x, y) => is_constant(x) && is_constant(y),
        Expr::Pow(x, _) => is_constant(x),
        Expr::Here | Expr::Div(_, _) | Expr::Sum { .. } | Expr::Prod { .. } => false,
    }
}

fn is_minus_here(e: &Expr) -> bool
    ensures { result ≡ is_minus_here (tree_of e.now) }
{
    match e {
        Expr::Neg(x) => is_here(x),
        _ => false,
    }
}

// Writes x of (x + 1 - j) / j.
#[cycle(write)]
#[tactic(auto, using(crate::proofs::PrintSteps::short_left))]
fn write_left(body: &Expr, scope: Scope, out: &mut Row<u8>) -> Result<(), AllocError>
    requires { body_form (tree_of body.now) ≡ ProductForm.Binomial }
    ensures text { OnOk result (out.new ≡ out.old ++ plain
        (left_of (left_of (left_of (written scope.variable scope.parameter scope.bound (tree_of body.now)))))) }
    ensures short { OnOk result (IsShort (tree_of body.now)) }
{
    match body {
        Expr::Div(top, _) => match &**top {
            Expr::Add(more, _) => match &**more {
                Expr::Add(x, _) => write(x, scope, out),
                _ => unreachable!(),
            },
            _ => unreachable!(),
        },
        _ => unreachable!(),
    }
}

// Writes a comma, the name and the closing parenthesis of a call.
fn push_name(name: u8, out: &mut Row<u8>) -> Result<(), AllocError>
    ensures { OnOk result (out.new ≡ out.old ++ 44 ∷ (name ∷ (41 ∷ []))) }
{
    out.extend_from_slice(&[b',', name, b')'])
}
