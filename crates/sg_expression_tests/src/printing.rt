ghost use Rattle.std.specs.Prelude.{◌<◌};

use sg_num::Row;
use sg_text::{Bounds, ReadFault, print, read};
use std::alloc::{AllocError, Global};
use std::test::Fail;

fn wide() -> Bounds {
    Bounds {
        bytes: 100_000,
        parens: 1000,
        numeral: i128::MAX,
        exponent: u128::MAX,
    }
}

// What is printed of what is read, or nothing where the text isn't read.
#[tactic(auto, using(sg_text::proofs::PrintForms::read_form))]
fn printed_again(alloc: Global, text: &[u8]) -> Result<Option<Row<u8>>, AllocError> {
    match read(alloc, text, b"kn", &wide()) {
        Ok(e) => Ok(Some(print(alloc, &e, b"kn")?)),
        Err(ReadFault::Memory(e)) => Err(e),
        Err(_) => Ok(None),
    }
}

// The texts were written by hand by the rules of docs/printing.md.
#[test]
fn prints_what_is_read(rt: HostRuntime) -> Result<(), Fail> {
    let cases: [(&str, &str); 30] = [
        (" ( k +1)*H( k ,1)", "(k+1)*H(k)"),
        ("((k))+(n*(2))", "k+n*2"),
        ("(-k)+n", "-k+n"),
        ("(-k)*n", "(-k)*n"),
        ("-(k*n)", "-k*n"),
        ("-(-k)", "-(-k)"),
        ("k-(n+1)", "k-(n+1)"),
        ("k+(-n)", "k-n"),
        ("k-(-n)", "k-(-n)"),
        ("k+(n-1)", "k+(n-1)"),
        ("(k+n)-1", "k+n-1"),
        ("k/(n*2)", "k/(n*2)"),
        ("(k/n)*2", "k/n*2"),
        ("k*(n/2)", "k*(n/2)"),
        ("(k*n)^2", "(k*n)^2"),
        ("(k^2)^3", "(k^2)^3"),
        ("-(k^2)", "-k^2"),
        ("007", "7"),
        ("H(k,32)", "H(k,32)"),
        ("H(k,33)", "sum(j,1,k,1/j^33)"),
        ("sum(i,1,k,1/i^1)", "sum(j,1,k,1/j^1)"),
        ("sum(x,-2,k,sum(y,1,x,y*n))", "sum(j,-2,k,sum(i,1,j,i*n))"),
        ("prod(m,1,k,m)", "fact(k)"),
        ("prod(m,2,k,m)", "prod(j,2,k,j)"),
        ("prod(m,1,k,(2*n+1-m)/m)", "binom(2*n,k)"),
        ("prod(m,1,k,(m+1-m)/m)", "prod(j,1,k,(j+1-j)/j)"),
        ("prod(m,1,k,-1/2)", "pow(-1/2,k)"),
        ("prod(m,1,k,(-1)/2)", "prod(j,1,k,(-1)/2)"),
        ("1/(2*fact(k))", "1/(2*fact(k))"),
        ("sum(j,1,k,binom(n,j)^2)", "sum(j,1,k,binom(n,j)^2)"),
    ];
    for (text, want) in cases {
        let found = printed_again(rt.alloc(), text.as_bytes())?;
        let same = match &found {
            Some(w) => w.as_slice() == want.as_bytes(),
            None => false,
        };
        assert!(rt; same, "{text}");
    }
    Ok(())
}

fn add_bytes(out: &mut Row<u8>, bytes: &[u8]) -> Result<(), AllocError> {
    for b in bytes {
        out.push(*b)?;
    }
    Ok(())
}

// Texts drawn by a linear congruential generator.
#[derive(Drop)]
struct Draw {
    seed: u64,
}

impl Draw {
    fn below(&mut self, n: u64) -> u64
        requires { 0 < n }
        ensures { result < n }
    {
        self.seed = self
            .seed
            .wrapping_mul(6_364_136_223_846_793_005)
            .wrapping_add(1_442_695_040_888_963_407);
        (self.seed >> 33) % n
    }

    // A text round another one; a bound name hides the variable.
    fn around(&mut self, alloc: Global, text: &Row<u8>) -> Result<Row<u8>, AllocError> {
        let (head, tail) = match self.below(14) {
            0 => ("-(", ")"),
            1 => ("(", ")^2"),
            2 => ("(", ")/n"),
            3 => ("(", ")/(k+1)"),
            4 => ("k-(", ")"),
            5 => ("(", ")-n*k"),
            6 => ("7*(", ")"),
            7 => ("(", ")*(1-n)"),
            8 => ("sum(k,-1,k,", ")"),
            9 => ("prod(k,1,k,", ")"),
            10 => ("binom(", ",k)"),
            11 => ("3/(", ")"),
            12 => ("H(k,2)-(", ")"),
            _ => ("(", ")+(-n)"),
        };
        let mut out = Row::new(alloc);
        add_bytes(&mut out, head.as_bytes())?;
        add_bytes(&mut out, text.as_slice())?;
        add_bytes(&mut out, tail.as_bytes())?;
        Ok(out)
    }

    // A text of at most this depth.
    fn text(&mut self, alloc: Global, depth: u32) -> Result<Row<u8>, AllocError> {
        let mut text = Row::new(alloc);
        text.push(if self.below(2) == 0 { b'k' } else { b'2' })?;
        for _ in 0..depth {
            text = self.around(alloc, &text)?;
        }
        Ok(text)
    }
}

// Whether the text of what is read reads as the same, or nothing where the text isn't read.
#[tactic(auto, using(sg_text::proofs::PrintForms::read_form))]
fn reads_back(alloc: Global, text: &[u8]) -> Result<Option<bool>, AllocError> {
    match read(alloc, text, b"kn", &wide()) {
        Ok(e) => {
            let again = print(alloc, &e, b"kn")?;
            match read(alloc, again.as_slice(), b"kn", &wide()) {
                Ok(f) => Ok(Some(e.same(&f))),
                Err(ReadFault::Memory(e)) => Err(e),
                Err(_) => Ok(Some(false)),
            }
        }
        Err(ReadFault::Memory(e)) => Err(e),
        Err(_) => Ok(None),
    }
}

#[test]
fn drawn_texts_read_back(rt: HostRuntime) -> Result<(), Fail> {
    let alloc = rt.alloc();
    let mut draw = Draw { seed: 1 };
    let mut read = 0u32;
    for round in 0..600 {
        let text = draw.text(alloc, 1 + round % 6)?;
        if let Some(same) = reads_back(alloc, text.as_slice())? {
            assert!(rt; same, "{:?}", text.as_slice());
            read = read.saturating_add(1);
        }
    }
    assert!(rt; read > 300, "{read} texts were read");
    Ok(())
}
