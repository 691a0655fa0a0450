use sg_syntax::{Node, SyntaxFault, parse};

fn is_number(node: &Node, place: u32, number: u64) -> bool {
    match node {
        Node::Number(at, value) => *at == place && *value == number,
        _ => false,
    }
}

fn is_name(node: &Node, place: u32, letter: u8) -> bool {
    match node {
        Node::Named(m) => m.at == place && m.value == letter,
        _ => false,
    }
}

fn is_product(node: &Node) -> bool {
    match node {
        Node::Multiplied(x, y) => is_number(x, 1, 12) && is_name(y, 4, b'k'),
        _ => false,
    }
}

#[test]
fn parts_stand_at_their_places(rt: HostRuntime) {
    let as_wanted = match parse(rt.alloc(), b" 12*k") {
        Ok(node) => is_product(&node),
        Err(_) => false,
    };
    assert!(rt; as_wanted);
}

#[test]
fn a_text_that_breaks_off_ends_too_early(rt: HostRuntime) {
    let as_wanted = match parse(rt.alloc(), b"sum(j,1,k") {
        Err(SyntaxFault::Syntax { at }) => at == 9,
        _ => false,
    };
    assert!(rt; as_wanted);
}
