//! The first fault of a tree.
ghost use Rattle.std.specs.Prelude.{◌≡◌, ◌==◌, ◌&&◌, ◌++◌, not};
ghost use Rattle.sg_spec.specs.Reading.{is_divisor as is_divisor_in, is_constant as is_constant_in, call_faults, bound_faults, faults, fault_unless, numeral_fault, exponent_fault, form};
ghost use Rattle.sg_text.specs.Firsts.{first_of};
ghost use Rattle.sg_text.specs.Tests.{polynomial_in, divisor_in, constant_in};
ghost use Rattle.sg_syntax.specs.Drafts.{value_of, mark_spot, numeral_spot, placed_of};
ghost use Rattle.sg_text.specs.Scopes.{names_of, found_of};
ghost use Rattle.sg_text.specs.Limited.{limits_of};

use crate::bounds::{Bounds, is_small};
use crate::found::{Found, Kind, earlier, unless};
use crate::scope::Scope;
use sg_syntax::{Head, Mark, Node, Numeral};

/// The first fault of a tree, if there is one; the test tells whether it stands in the body of a product. A text of many
/// terms or factors goes far down on the left alone: so left operands are taken in a loop, the last one first.
#[cycle(faults)]
#[tactic(auto, using(crate::proofs::FirstFault::appended))]
pub fn first_fault(node: &Node, bounds: &Bounds, in_product: bool, scope: Scope) -> Option<Found>
    ensures { found_of result ≡ first_of (faults (limits_of bounds.now) in_product (names_of scope) (placed_of node.now)) }
{
    let mut left = node;
    let mut later = None;
    loop {
        match left {
            Node::Added(x, y) | Node::Subtracted(x, y) | Node::Multiplied(x, y) => {
                later = earlier(first_fault(y, bounds, in_product, scope), later);
                left = x;
            }
            Node::Divided(x, place, y) => {
                later = earlier(divisor_fault(*place, y, bounds, in_product, scope), later);
                left = x;
            }
            _ => return earlier(fault_of_parts(left, bounds, in_product, scope), later),
        }
    }
}

/// The first fault of a divisor, which has to have its form.
#[cycle(faults)]
#[tactic(auto, using(crate::proofs::FirstFault::appended))]
fn divisor_fault(
    place: Mark,
    y: &Node,
    bounds: &Bounds,
    in_product: bool,
    scope: Scope,
) -> Option<Found>
    ensures { found_of result ≡ first_of (fault_unless (is_divisor_in (names_of scope) (placed_of y.now)) form place.at
        ++ faults (limits_of bounds.now) in_product (names_of scope) (placed_of y.now)) }
{
    let divisor = unless(is_divisor(y, scope), Kind::Form, place.at);
    earlier(divisor, first_fault(y, bounds, in_product, scope))
}

/// Whether its tree is a divisor, without a name that is unknown.
fn is_divisor(node: &Node, scope: Scope) -> bool
    ensures { result ≡ is_divisor_in (names_of scope) (placed_of node.now) }
{
    let test = has_divisor_form(node, scope);
    test
}

/// Whether it is a polynomial, a product, or built from such by powers, products and opposites.
fn has_divisor_form(node: &Node, scope: Scope) -> bool
    ensures { result ≡ divisor_in (names_of scope) (placed_of node.now) }
{
    match node {
        Node::Number(_, _) | Node::LargeNumber(_) => true,
        Node::Named(m) => scope.is_known(m.value),
        Node::Negated(x) | Node::Raised(x, _) => has_divisor_form(x, scope),
        Node::Added(x, y) | Node::Subtracted(x, y) => is_polynomial(x, scope)
            && is_polynomial(y, scope),
        Node::Multiplied(x, y) => has_divisor_form(x, scope) && has_divisor_form(y, scope),
        Node::ProductCall(_, _)
        | Node::Factorial(_, _)
        | Node::Binomial(_, _, _, _)
        | Node::ConstantPower(_, _, _) => true,
        Node::Divided(_, _, _)
        | Node::SumCall(_, _)
        | Node::Harmonic(_, _)
        | Node::HarmonicOfOrder(_, _, _) => false,
    }
}

/// Whether it is built from numbers, the variable and the parameter without calls and divisions.
fn is_polynomial(node: &Node, scope: Scope) -> bool
    ensures { result ≡ polynomial_in (names_of scope) (placed_of node.now) }
{
    match node {
        Node::Number(_, _) | Node::LargeNumber(_) => true,
        Node::Named(m) => scope.is_known(m.value),
        Node::Negated(x) | Node::Raised(x, _) => is_polynomial(x, scope),
        Node::Added(x, y) | Node::Subtracted(x, y) | Node::Multiplied(x, y) => {
            is_polynomial(x, scope) && is_polynomial(y, scope)
        }
        Node::Divided(_, _, _)
        | Node::SumCall(_, _)
        | Node::ProductCall(_, _)
        | Node::Harmonic(_, _)
        | Node::HarmonicOfOrder(_, _, _)
        | Node::Factorial(_, _)
        | Node::Binomial(_, _, _, _)
        | Node::ConstantPower(_, _, _) => false,
    }
}

/// The first fault of a tree, by its parts.
#[cycle(faults)]
#[tactic(auto, using(crate::proofs::FirstFault::appended))]
fn fault_of_parts(node: &Node, bounds: &Bounds, in_product: bool, scope: Scope) -> Option<Found>
    ensures { found_of result ≡ first_of (faults (limits_of bounds.now) in_product (names_of scope) (placed_of node.now)) }
{
    match node {
        Node::Number(at, v) => number_fault(bounds, *at, *v),
        Node::LargeNumber(n) => unless(bounds.takes_numeral(**n), Kind::Numeral, n.at),
        Node::Named(m) => unless(scope.is_known(m.value), Kind::Unbound, m.at),
        Node::Negated(x) => first_fault(x, bounds, in_product, scope),
        Node::Added(x, y) | Node::Subtracted(x, y) | Node::Multiplied(x, y) => earlier(
            first_fault(x, bounds, in_product, scope),
            first_fault(y, bounds, in_product, scope),
        ),
        Node::Divided(x, place, y) => {
            let left = first_fault(x, bounds, in_product, scope);
            let right = divisor_fault(*place, y, bounds, in_product, scope);
            earlier(left, right)
        }
        Node::Raised(x, n) => {
            let base = first_fault(x, bounds, in_product, scope);
            earlier(
                base,
                unless(bounds.takes_exponent(**n), Kind::Exponent, n.at),
            )
        }
        Node::SumCall(head, body) => {
            let outer = head_fault(bounds, in_product, scope, head);
            let inner = first_fault(body, bounds, in_product, scope.inside(head.bound.value));
            earlier(outer, inner)
        }
        Node::ProductCall(head, body) => {
            let outer = head_fault(bounds, in_product, scope, head);
            let inner = first_fault(body, bounds, true, scope.inside(head.bound.value));
            earlier(outer, inner)
        }
        Node::Harmonic(call, name) => call_fault(in_product, scope, *call, *name),
        Node::HarmonicOfOrder(call, name, order) => {
            let outer = call_fault(in_product, scope, *call, *name);
            earlier(outer, order_fault(bounds, order))
        }
        Node::Factorial(call, name) => call_fault(in_product, scope, *call, *name),
        Node::Binomial(call, place, x, name) => {
            let outer = call_fault(in_product, scope, *call, *name);
            let argument = unless(is_constant(x, scope), Kind::Form, place.at);
            let inner = first_fault(x, bounds, in_product, scope);
            earlier(earlier(outer, argument), inner)
        }
        Node::ConstantPower(call, x, name) => {
            let outer = call_fault(in_product, scope, *call, *name);
            earlier(outer, first_fault(x, bounds, in_product, scope))
        }
    }
}

fn number_fault(bounds: &Bounds, at: u32, v: u64) -> Option<Found>
    ensures { found_of result ≡ first_of (fault_unless ((limits_of bounds.now).numeral v) numeral_fault at) }
{
    let n = Numeral {
        at,
        value: Some(v as u128),
    };
    unless(bounds.takes_numeral(n), Kind::Numeral, at)
}

#[tactic(auto, using(crate::proofs::FirstFault::appended))]
fn head_fault(bounds: &Bounds, in_product: bool, scope: Scope, head: &Head) -> Option<Found>
    ensures { found_of result ≡ first_of (bound_faults (limits_of bounds.now) in_product (names_of scope)
        (mark_spot head.now.call) (mark_spot head.now.bound) (mark_spot head.now.sign) (numeral_spot head.now.lower) (mark_spot head.now.upper)) }
{
    let call = unless(!in_product, Kind::Form, head.call.at);
    let bound = unless(
        !scope.is_parameter(head.bound.value),
        Kind::Form,
        head.bound.at,
    );
    let sign = unless(is_small(head.lower), Kind::Form, head.sign.at);
    let lower = unless(
        bounds.takes_numeral(head.lower),
        Kind::Numeral,
        head.lower.at,
    );
    let upper = unless(
        scope.is_variable(head.upper.value),
        Kind::Form,
        head.upper.at,
    );
    earlier(earlier(earlier(earlier(call, bound), sign), lower), upper)
}

#[tactic(auto, using(crate::proofs::FirstFault::appended))]
fn call_fault(in_product: bool, scope: Scope, call: Mark, name: Mark) -> Option<Found>
    ensures { found_of result ≡ first_of (call_faults in_product (names_of scope) (mark_spot call) (mark_spot name)) }
{
    earlier(
        unless(!in_product, Kind::Form, call.at),
        unless(scope.is_variable(name.value), Kind::Form, name.at),
    )
}

/// The second argument of `H` is an exponent of at least 1.
fn order_fault(bounds: &Bounds, order: &Numeral) -> Option<Found>
    ensures { found_of result ≡ first_of (fault_unless (not (value_of order.now.value == 0)
        && (limits_of bounds.now).exponent (value_of order.now.value)) exponent_fault order.now.at) }
{
    let is_zero = match order.value {
        Some(v) => v == 0,
        None => false,
    };
    unless(
        !is_zero && bounds.takes_exponent(*order),
        Kind::Exponent,
        order.at,
    )
}

/// Whether its tree is a constant.
fn is_constant(node: &Node, scope: Scope) -> bool
    ensures { result ≡ is_constant_in (names_of scope) (placed_of node.now) }
{
    let test = has_constant_form(node, scope);
    test
}

/// Whether it is built from numbers and names other than the variable without calls and divisions.
fn has_constant_form(node: &Node, scope: Scope) -> bool
    ensures { result ≡ constant_in (names_of scope) (placed_of node.now) }
{
    match node {
        Node::Number(_, _) | Node::LargeNumber(_) => true,
        Node::Named(m) => !scope.is_variable(m.value),
        Node::Negated(x) | Node::Raised(x, _) => has_constant_form(x, scope),
        Node::Added(x, y) | Node::Subtracted(x, y) | Node::Multiplied(x, y) => {
            has_constant_form(x, scope) && has_constant_form(y, scope)
        }
        Node::Divided(_, _, _)
        | Node::SumCall(_, _)
        | Node::ProductCall(_, _)
        | Node::Harmonic(_, _)
        | Node::HarmonicOfOrder(_, _, _)
        | Node::Factorial(_, _)
        | Node::Binomial(_, _, _, _)
        | Node::ConstantPower(_, _, _) => false,
    }
}
