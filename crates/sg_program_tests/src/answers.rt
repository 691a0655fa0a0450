use sg_gen::sample;
use sg_io::{MemSink, MemSource, SteadySink, SteadySource};
use sg_num::Row;
use sg_text::print;
use sg_top::{Status, sigma};
use std::alloc::{AllocError, Global};
use std::test::Fail;

fn words_of(alloc: Global, line: &str) -> Result<Vec<String>, AllocError> {
    let mut words = Vec::new(alloc);
    for word in line.split(' ') {
        words.push(String::from_str(alloc, word)?)?;
    }
    Ok(words)
}

#[test]
fn a_failing_write_leaves_the_front(rt: HostRuntime) -> Result<(), Fail> {
    let words = words_of(rt.alloc(), "sum 1 k")?;
    let mut fails = Row::new(rt.alloc());
    fails.push(2)?;
    let mut source = MemSource::new(Row::new(rt.alloc()), 1, Row::new(rt.alloc()));
    let mut sink = MemSink::new(rt.alloc(), 100, 4, fails)?;
    let got = sigma(rt.alloc(), words.as_slice(), &mut source, &mut sink);
    assert_eq!(rt; got, Status::WriteFault);
    assert_eq!(rt; sink.held(), b"clos".as_slice());
    Ok(())
}

#[test]
fn steady_ends_never_fail(rt: HostRuntime) -> Result<(), Fail> {
    let words = words_of(rt.alloc(), "sum 1 k")?;
    let mut source = SteadySource::new(Row::new(rt.alloc()));
    let mut sink = SteadySink::new();
    let got = sigma(rt.alloc(), words.as_slice(), &mut source, &mut sink);
    assert_eq!(rt; got, Status::Done);
    assert_eq!(rt; got.code(), 0);
    Ok(())
}

/// The bytes of a source.
fn row_of(alloc: Global, bytes: &[u8]) -> Result<Row<u8>, AllocError> {
    let mut row = Row::new(alloc);
    for b in bytes {
        row.push(*b)?;
    }
    Ok(row)
}

/// Each read of a small batch fails in turn; then no line is answered.
#[test]
fn a_failing_read_is_told(rt: HostRuntime) -> Result<(), Fail> {
    for fails in 1..5 {
        let words = words_of(rt.alloc(), "batch")?;
        let mut calls = Row::new(rt.alloc());
        calls.push(fails)?;
        let mut source = MemSource::new(row_of(rt.alloc(), b"sum 1 k")?, 3, calls);
        let mut sink = MemSink::new(rt.alloc(), 100, 100, Row::new(rt.alloc()))?;
        let got = sigma(rt.alloc(), words.as_slice(), &mut source, &mut sink);
        assert_eq!(rt; got, Status::ReadFault);
        assert_eq!(rt; sink.held(), b"read fault\n".as_slice());
    }
    Ok(())
}

/// Each write of a small batch fails in turn; what was written before stands.
#[test]
fn a_failing_write_ends_a_batch(rt: HostRuntime) -> Result<(), Fail> {
    for (fails, held) in [(1, ""), (2, "usage\n"), (3, "usage\nnone o")] {
        let words = words_of(rt.alloc(), "batch")?;
        let mut calls = Row::new(rt.alloc());
        calls.push(fails)?;
        let mut source = SteadySource::new(row_of(rt.alloc(), b"k\nsum 1 1/k")?);
        let mut sink = MemSink::new(rt.alloc(), 100, 6, calls)?;
        let got = sigma(rt.alloc(), words.as_slice(), &mut source, &mut sink);
        assert_eq!(rt; got, Status::WriteFault);
        assert_eq!(rt; sink.held(), held.as_bytes());
    }
    Ok(())
}

/// 1,001 lines: none is answered. The next read would fail.
#[test]
fn a_large_batch_is_refused(rt: HostRuntime) -> Result<(), Fail> {
    let words = words_of(rt.alloc(), "batch")?;
    let mut bytes = Row::new(rt.alloc());
    for _ in 0..1001 {
        bytes.push(b'\n')?;
    }
    let mut calls = Row::new(rt.alloc());
    calls.push(1002)?;
    let mut source = MemSource::new(bytes, 1, calls);
    let mut sink = MemSink::new(rt.alloc(), 100, 100, Row::new(rt.alloc()))?;
    let got = sigma(rt.alloc(), words.as_slice(), &mut source, &mut sink);
    assert_eq!(rt; got, Status::Refused);
    assert_eq!(rt; sink.held(), b"refused batch\n".as_slice());
    Ok(())
}

/// The text of a sample.
fn sample_text(alloc: Global, seed: u64, i: u32) -> Result<Row<u8>, AllocError> {
    let e = sample(alloc, seed, i)?;
    print(alloc, &e, b"k")
}

#[test]
fn samples_are_printed_as_they_are_stated(rt: HostRuntime) -> Result<(), Fail> {
    for (seed, i, text) in [
        (0, 0, "4*k^1/(k+1)+3*k^2*H(k,2)+1*k^1*H(k)^2"),
        (0, 1, "4*k^0*H(k)^2+9*k^2*H(k)^2+5*k^0*H(k)^2"),
        (5, 0, "6*k^2*H(k)+5*k^1/k+9*k^1*H(k,2)/k"),
        (7, 999, "7*k^0/(k+1)+8*k^1*H(k)^2/(k+1)+1*k^1*H(k,2)/k"),
    ] {
        let printed = sample_text(rt.alloc(), seed, i)?;
        assert_eq!(rt; printed.as_slice(), text.as_bytes());
    }
    Ok(())
}
