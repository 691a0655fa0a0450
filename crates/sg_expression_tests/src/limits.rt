//! Expressions are written with each operation after its operands: a digit, `k`, `n`, `+`, `*`, `/` and `~` for the opposite; `^` for
//! a power, whose exponent stands last; `s` and `p` for the sum and the product of what stands last, from the number before it on.
ghost use Rattle.std.specs.Prelude.{◌≡◌, ◌≤◌, true, [], ◌∷◌, IsTrue, IfOk, IfSome, length, map};
ghost use Rattle.sg_spec.specs.Printing.{InForm};
ghost use Rattle.sg_spec.specs.Shape.{is_polynomial_tree, is_divisor_tree};
ghost use Rattle.sg_expr.specs.Tree.{tree_of};
ghost use Rattle.sg_limits.specs.Counts.{AreInForm};

use sg_expr::Expr;
use sg_limits::{Divisor, LimitFault, divisor_parts, inspect, start_of, zero_parts};
use sg_num::{Row, Stop};
use std::alloc::{AllocError, Global};
use std::test::Fail;

/// The expressions of a text, in their order.
fn read(alloc: Global, text: &[u8]) -> Result<Row<Expr>, AllocError> {
    let mut stack = Row::new(alloc);
    for byte in text {
        let e = made(alloc, &mut stack, *byte)?;
        stack.push(e)?;
    }
    Ok(stack)
}

fn made(alloc: Global, stack: &mut Row<Expr>, byte: u8) -> Result<Expr, AllocError> {
    match byte {
        b'k' => Ok(Expr::Here),
        b'n' => Ok(Expr::Param),
        b'~' => opposite(alloc, last(stack)),
        b'^' => power(alloc, stack),
        b's' | b'p' => scope(alloc, stack, byte),
        b'+' | b'*' | b'/' => joined(alloc, stack, byte),
        digit => Ok(Expr::Num(i128::from(digit.saturating_sub(48)))),
    }
}

fn last(stack: &mut Row<Expr>) -> Expr {
    match stack.pop() {
        Some(e) => e,
        None => Expr::Here,
    }
}

fn opposite(alloc: Global, e: Expr) -> Result<Expr, AllocError> {
    Ok(Expr::Neg(Box::new(alloc, e)?))
}

fn power(alloc: Global, stack: &mut Row<Expr>) -> Result<Expr, AllocError> {
    let exponent = number(last(stack));
    Ok(Expr::Pow(
        Box::new(alloc, last(stack))?,
        exponent.unsigned_abs() as u128,
    ))
}

fn number(e: Expr) -> i64 {
    match e {
        Expr::Num(n) => i64::try_from(n).unwrap_or(0),
        _ => 0,
    }
}

fn scope(alloc: Global, stack: &mut Row<Expr>, byte: u8) -> Result<Expr, AllocError> {
    let body = Box::new(alloc, last(stack))?;
    let from = number(last(stack));
    if byte == b's' {
        return Ok(Expr::Sum { from, body });
    }
    Ok(Expr::Prod { from, body })
}

fn joined(alloc: Global, stack: &mut Row<Expr>, byte: u8) -> Result<Expr, AllocError> {
    let right = Box::new(alloc, last(stack))?;
    let left = Box::new(alloc, last(stack))?;
    match byte {
        b'+' => Ok(Expr::Add(left, right)),
        b'*' => Ok(Expr::Mul(left, right)),
        _ => Ok(Expr::Div(left, right)),
    }
}

/// Whether it is of the form that is read.
fn is_in_form(e: &Expr, inside: bool) -> bool
    ensures { IsTrue result → InForm true inside (tree_of e.now) }
{
    match e {
        Expr::Num(n) => *n >= 0,
        Expr::Here | Expr::Param => true,
        Expr::Add(x, y) | Expr::Mul(x, y) => is_in_form(x, inside) && is_in_form(y, inside),
        Expr::Div(x, y) => is_in_form(x, inside) && is_in_form(y, inside) && is_divisor(y),
        Expr::Neg(x) | Expr::Pow(x, _) => is_in_form(x, inside),
        Expr::Sum { from, body } => !inside && *from >= 0 && *from <= 9 && is_in_form(body, false),
        Expr::Prod { from, body } => !inside && *from >= 0 && *from <= 9 && is_in_form(body, true),
    }
}

fn is_divisor(e: &Expr) -> bool
    ensures { result ≡ is_divisor_tree (tree_of e.now) }
{
    match e {
        Expr::Num(_) | Expr::Here | Expr::Param | Expr::Prod { from: _, body: _ } => true,
        Expr::Add(x, y) => is_polynomial(x) && is_polynomial(y),
        Expr::Mul(x, y) => is_divisor(x) && is_divisor(y),
        Expr::Neg(x) | Expr::Pow(x, _) => is_divisor(x),
        Expr::Div(_, _) | Expr::Sum { from: _, body: _ } => false,
    }
}

fn is_polynomial(e: &Expr) -> bool
    ensures { result ≡ is_polynomial_tree (tree_of e.now) }
{
    match e {
        Expr::Num(_) | Expr::Here | Expr::Param => true,
        Expr::Add(x, y) | Expr::Mul(x, y) => is_polynomial(x) && is_polynomial(y),
        Expr::Neg(x) | Expr::Pow(x, _) => is_polynomial(x),
        Expr::Div(_, _) | Expr::Sum { from: _, body: _ } | Expr::Prod { from: _, body: _ } => false,
    }
}

fn answer(alloc: Global, items: &Row<Expr>, lower: Option<i64>) -> Result<String, Fail>
    requires few { length items.now ≤ 16 }
    requires form { IfSome lower (λ _. AreInForm (map tree_of items.now)) }
{
    match inspect(alloc, items, lower) {
        Ok(facts) => Ok(format!(in alloc;
            "{} sums, {} products from {}",
            facts.sums.len(),
            facts.prods.len(),
            facts.start
        )?),
        Err(LimitFault::Stop(Stop::Memory(want))) => Err(want)?,
        Err(fault) => Ok(told(alloc, fault)?),
    }
}

fn told(alloc: Global, fault: LimitFault) -> Result<String, AllocError> {
    match fault {
        LimitFault::FarPole { item, part, depth } => format!(in alloc;
            "far pole {item} {part:?} {depth}"
        ),
        LimitFault::Pole {
            item,
            at,
            part,
            depth,
        } => format!(in alloc; "pole {item} at {at} {part:?} {depth}"),
        LimitFault::ZeroFactor {
            item,
            at,
            part,
            depth,
        } => format!(in alloc; "zero factor {item} at {at} {part:?} {depth}"),
        fault => format!(in alloc; "{fault}"),
    }
}

/// What is told of the expressions of a text, of which there are at most 16.
fn counted(alloc: Global, text: &[u8]) -> Result<String, Fail> {
    let items = read(alloc, text)?;
    if items.len() > 16 {
        return Ok(format!(in alloc; "too many")?);
    }
    answer(alloc, &items, None)
}

/// What is told of the last two expressions of a text, where poles are sought.
fn sought(alloc: Global, text: &[u8], lower: i64) -> Result<String, Fail> {
    let mut items = read(alloc, text)?;
    let second = last(&mut items);
    let first = last(&mut items);
    if !is_in_form(&first, false) || !is_in_form(&second, false) {
        return Ok(format!(in alloc; "not in form")?);
    }
    let both = pair(alloc, first, second)?;
    answer(alloc, &both, Some(lower))
}

fn pair(alloc: Global, first: Expr, second: Expr) -> Result<Row<Expr>, AllocError>
    ensures { IfOk result (λ items. items ≡ first ∷ second ∷ []) }
{
    let mut items = Row::new(alloc);
    items.push(first)?;
    items.push(second)?;
    Ok(items)
}

/// The variable under that many signs, which has one node more.
fn signs(alloc: Global, count: u32) -> Result<Vec<u8>, AllocError> {
    let mut text = Vec::new(alloc);
    text.push(b'k')?;
    for _i in 0..count {
        text.push(b'~')?;
    }
    Ok(text)
}

#[test]
fn nodes_are_counted(rt: HostRuntime) -> Result<(), Fail> {
    let least = signs(rt.alloc(), 1999)?;
    let most = signs(rt.alloc(), 2000)?;
    assert_eq!(rt;
        counted(rt.alloc(), &least)?.as_str(),
        "0 sums, 0 products from 0"
    );
    assert_eq!(rt;
        counted(rt.alloc(), &most)?.as_str(),
        "expression 1 has too many nodes"
    );
    Ok(())
}

#[test]
fn each_limit_is_exact(rt: HostRuntime) -> Result<(), Fail> {
    for (text, want) in [
        ("k8^8^", "0 sums, 0 products from 0"),
        ("1n8^8^n*", "a degree of expression 2 is too high"),
        ("1k8^8^k*s", "a degree of expression 1 is too high"),
        ("k8^5^k8^5^*", "a degree of expression 1 is too high"),
        ("k8^5^1k8^5^s*", "1 sums, 0 products from 0"),
        ("0ks9^", "a degree of expression 1 is too high"),
        (
            "0ks1ks+2ks+3ks+4ks+5ks+6ks+7ks+",
            "8 sums, 0 products from 0",
        ),
        (
            "0ks1ks+2ks+3ks+4ks+5ks+6ks+7ks+8ks+",
            "there are too many sums",
        ),
        (
            "1ks1ks+1ks+1ks+1ks+1ks+1ks+1ks+1ks+",
            "1 sums, 0 products from 0",
        ),
        ("0kp1kp+2kp+3kp+", "0 sums, 4 products from 0"),
        ("0kp1kp+2kp+3kp+4kp+", "there are too many products"),
        (
            "0kp1kp+2kp+3kp+4kp+0ks+1ks+2ks+3ks+4ks+5ks+6ks+7ks+8ks+",
            "there are too many sums",
        ),
        (
            "0kp1kp+2kp+3kp+4kp5kp+6kp+7kp+8kp9kp+0np+1np+2np3np+4np+5np+6np7np+8np+9np+",
            "0 sums, 20 products from 0",
        ),
        (
            "0kp1kp+2kp+3kp+4kp5kp+6kp+7kp+8kp9kp+0np+1np+2np3np+4np+5np+6np7np+8np+9np+0k~p",
            "there are too many products",
        ),
    ] {
        let told = counted(rt.alloc(), text.as_bytes())?;
        assert_eq!(rt; told.as_str(), want);
    }
    Ok(())
}

/// 4096 is written 8^4, 2^126 is (4^7)^9. A weight above 2^126 alone stops nothing, only one that doesn't fit 128 bits.
#[test]
fn parts_are_found(rt: HostRuntime) -> Result<(), Fail> {
    for (text, lower, want) in [
        ("0kp", 1, "zero factor 2 at 0 Here 1"),
        ("1kk~+/", -3, "pole 2 at -3 Add(Here, Neg(Here)) 0"),
        (
            "1nk*k+2n*2+~+/",
            1,
            "pole 2 at 2 Add(Add(Mul(Param, Here), Here), Neg(Add(Mul(Num(2), Param), Num(2)))) 0",
        ),
        ("1nk~+/", -3, "0 sums, 0 products from -3"),
        ("1k84^~+/", 1, "far pole 2 Add(Here, Neg(Pow(Num(8), 4))) 0"),
        (
            "1k84^~1++/",
            1,
            "pole 2 at 4095 Add(Here, Add(Neg(Pow(Num(8), 4)), Num(1))) 0",
        ),
        ("1k2~+k7~+*/", 1, "pole 2 at 2 Add(Here, Neg(Num(2))) 0"),
        (
            "1k2^9~+/",
            -5,
            "pole 2 at -3 Add(Pow(Here, 2), Neg(Num(9))) 0",
        ),
        ("1k2~+0^/", 1, "0 sums, 0 products from 1"),
        ("31k2~+/s", 1, "1 sums, 0 products from 2"),
        ("21k2~+/s", 3, "pole 2 at 2 Add(Here, Neg(Num(2))) 1"),
        ("1kk2~+/p", 1, "pole 2 at 2 Add(Here, Neg(Num(2))) 1"),
        (
            "1k3~+1k552*3^*~+/+p",
            1,
            "far pole 2 Add(Add(Here, Neg(Num(3))), Div(Num(1), Add(Here, Neg(Mul(Num(5), Pow(Mul(Num(5), Num(2)), 3)))))) 1",
        ),
        ("1k2~+/1k1~+/", 1, "pole 1 at 2 Add(Here, Neg(Num(2))) 0"),
        ("0kp1k1~+/", 1, "pole 2 at 1 Add(Here, Neg(Num(1))) 0"),
        (
            "1k1~+/1k84^~+/",
            1,
            "far pole 2 Add(Here, Neg(Pow(Num(8), 4))) 0",
        ),
        (
            "1k47^9^+/",
            1,
            "far pole 2 Add(Here, Pow(Pow(Num(4), 7), 9)) 0",
        ),
        ("147^9^k*47^9^~+/", 1, "a step does not fit 128 bits"),
        ("147^9^k*1+/", 1, "0 sums, 0 products from 1"),
    ] {
        let told = sought(rt.alloc(), text.as_bytes(), lower)?;
        assert_eq!(rt; told.as_str(), want);
    }
    Ok(())
}

#[test]
fn starts_before_the_last_lower_limit(rt: HostRuntime) -> Result<(), Fail> {
    let mut items = read(rt.alloc(), b"37ksp")?;
    let e = last(&mut items);
    assert_eq!(rt; start_of(&e, 0), 6);
    assert_eq!(rt; start_of(&e, 9), 9);
    assert_eq!(rt; start_of(&Expr::Here, -2), -2);
    Ok(())
}

/// The rows of each divisor over the powers of the variable, and its limit.
fn listed(alloc: Global, divisors: &[Divisor]) -> Result<String, AllocError> {
    let mut text = String::new(alloc);
    for d in divisors {
        let rows = rows_of(alloc, d)?;
        text = format!(in alloc; "{text}{rows}from {} ", d.limit)?;
    }
    Ok(text)
}

fn rows_of(alloc: Global, d: &Divisor) -> Result<String, AllocError> {
    let mut text = String::new(alloc);
    for row in d.poly.rows().as_slice() {
        text = format!(in alloc; "{text}{:?} ", row.as_slice())?;
    }
    Ok(text)
}

/// The divisors of the last expression of a text.
fn divided(alloc: Global, text: &[u8], lower: i64) -> Result<String, Fail> {
    let e = last(&mut read(alloc, text)?);
    if !is_in_form(&e, false) {
        return Ok(format!(in alloc; "not in form")?);
    }
    let divisors = divisor_parts(alloc, &e, lower)?;
    Ok(listed(alloc, divisors.as_slice())?)
}

/// The zero parts of the products of the last expression of a text.
fn factored(alloc: Global, text: &[u8]) -> Result<String, Fail> {
    let e = last(&mut read(alloc, text)?);
    if !is_in_form(&e, false) {
        return Ok(format!(in alloc; "not in form")?);
    }
    let divisors = zero_parts(alloc, &e)?;
    Ok(listed(alloc, divisors.as_slice())?)
}

#[test]
fn divisors_are_in_normal_form(rt: HostRuntime) -> Result<(), Fail> {
    for (text, lower, want) in [
        ("1k2n*2k*~+2+*/", 1, "[] [1] from 1 [-1, -1] [1] from 1 "),
        ("31k2~+/s1kk~+/+", 4, "[-2] [1] from 3 from 4 "),
        ("1k2~+0^/n3+6k*/*", 0, "[1] from 0 [] [1] from 0 "),
    ] {
        let told = divided(rt.alloc(), text.as_bytes(), lower)?;
        assert_eq!(rt; told.as_str(), want);
    }
    Ok(())
}

#[test]
fn zero_parts_are_numerators(rt: HostRuntime) -> Result<(), Fail> {
    for (text, want) in [
        ("1nk~+1+k/p", "[-1, -1] [1] from 1 "),
        ("2k4k/+1n/*p", "[4] [] [1] from 2 [1] from 2 "),
    ] {
        let told = factored(rt.alloc(), text.as_bytes())?;
        assert_eq!(rt; told.as_str(), want);
    }
    Ok(())
}
