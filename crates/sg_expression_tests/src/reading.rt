use sg_expr::Expr;
use sg_text::{Bounds, ReadFault, read};

fn is_long(found: &Result<Expr, ReadFault>) -> bool {
    match found {
        Err(ReadFault::Long) => true,
        _ => false,
    }
}

// Other bounds than the program's: the length is told before all else.
#[test]
fn a_text_may_be_long(rt: HostRuntime) {
    let text = b"sum(j,1,k,1/j)";
    let bounds = Bounds {
        bytes: 13,
        parens: 1,
        numeral: 1,
        exponent: 0,
    };
    assert!(rt; read(rt.alloc(), text, b"k", &Bounds::input()).is_ok());
    assert!(rt; is_long(&read(rt.alloc(), text, b"k", &bounds)));
}

fn are_alike(a: &Result<Expr, ReadFault>, b: &Result<Expr, ReadFault>) -> bool {
    match (a, b) {
        (Ok(x), Ok(y)) => x.same(y),
        _ => false,
    }
}

// The second text writes out what the first means.
#[test]
fn reads_alike(rt: HostRuntime) {
    let cases: [(&str, &str, bool); 13] = [
        ("-k^2", "-(k^2)", true),
        ("-k^2", "(-k)^2", false),
        ("1-2-3", "(1-2)-3", true),
        ("1-2-3", "1-(2-3)", false),
        ("6/2/3", "(6/2)/3", true),
        ("H(k)", "sum(j,1,k,1/j)", true),
        ("H(k,1)", "H(k)", true),
        ("H(k,3)", "sum(i,1,k,1/i^3)", true),
        ("fact(k)", "prod(j,1,k,j)", true),
        ("binom(2*n+1,k)", "prod(j,1,k,(2*n+1+1-j)/j)", true),
        ("pow(-1/2,k)", "prod(j,1,k,-(1/2))", true),
        ("sum(k,1,k,k)", "sum(j,1,k,j)", true),
        ("sum(j,-2,k,n)", "sum(j,- 02,k,n)", true),
    ];
    for (left, right, same) in cases {
        let a = read(rt.alloc(), left.as_bytes(), b"kn", &Bounds::input());
        let b = read(rt.alloc(), right.as_bytes(), b"kn", &Bounds::input());
        assert!(rt;
            a.is_ok() && b.is_ok() && are_alike(&a, &b) == same,
            "{left}"
        );
    }
}
