use crate::{Unread, first_line, read_whole, words_of};
use sg_io::{MemSource, Source, SteadySource};
use sg_num::Row;
use std::alloc::{AllocError, Global};
use std::test::Fail;

/// So many lines, each of so many bytes.
fn lines(alloc: Global, count: u32, size: u32) -> Result<Row<u8>, AllocError> {
    let mut row = Row::new(alloc);
    for _ in 0..count {
        for _ in 0..size {
            row.push(b'k')?;
        }
        row.push(b'\n')?;
    }
    Ok(row)
}

fn row_of(alloc: Global, bytes: &[u8]) -> Result<Row<u8>, AllocError> {
    let mut row = Row::new(alloc);
    for b in bytes {
        row.push(*b)?;
    }
    Ok(row)
}

/// A list of the one call at which a source fails.
fn call(alloc: Global, fails: u32) -> Result<Row<u32>, AllocError> {
    let mut row = Row::new(alloc);
    row.push(fails)?;
    Ok(row)
}

#[test]
fn lines_come_one_after_another(rt: HostRuntime) {
    for (text, line, more) in [
        ("sum 1 k\n\nfoo", "sum 1 k", "\nfoo"),
        ("\nfoo", "", "foo"),
        ("foo", "foo", ""),
        ("foo\n", "foo", ""),
    ] {
        let (first, rest) = first_line(text.as_bytes()).expect(&rt, "a line");
        assert_eq!(rt; first, line.as_bytes(), "{text}");
        assert_eq!(rt; rest, more.as_bytes(), "{text}");
    }
    assert!(rt; first_line(b"").is_none());
}

#[test]
fn words_stand_between_blanks(rt: HostRuntime) -> Result<(), Fail> {
    let words = words_of(rt.alloc(), b"  sum  1 k ")?;
    assert_eq!(rt; words.len(), 3);
    for (word, wanted) in words.as_slice().iter().zip(["sum", "1", "k"]) {
        assert_eq!(rt; word.as_slice(), wanted.as_bytes());
    }
    assert!(rt; words_of(rt.alloc(), b"  ")?.is_empty());
    Ok(())
}

#[test]
fn a_source_is_read_to_its_end(rt: HostRuntime) -> Result<(), Fail> {
    let text = b"sum 1 k\nfoo".as_slice();
    let mut source = MemSource::new(row_of(rt.alloc(), text)?, 3, Row::new(rt.alloc()));
    let read = read_whole(rt.alloc(), &mut source);
    assert_eq!(rt; read.ok().expect(&rt, "read").as_slice(), text);
    Ok(())
}

/// Each of the five reads fails in turn, the one that finds the end too.
#[test]
fn a_fault_is_no_end(rt: HostRuntime) -> Result<(), Fail> {
    for fails in 1..6 {
        let bytes = row_of(rt.alloc(), b"sum 1 k\nfoo")?;
        let mut source = MemSource::new(bytes, 3, call(rt.alloc(), fails)?);
        let read = read_whole(rt.alloc(), &mut source);
        assert_eq!(rt; read.err(), Some(Unread::Fault), "{fails}");
        assert_eq!(rt; source.faults(), 1);
    }
    Ok(())
}

/// The byte by which it is certain is the last one that is read: the next read would fail.
#[test]
fn no_read_follows_the_last_byte(rt: HostRuntime) -> Result<(), Fail> {
    for (count, size, read) in [(1001, 0, 1001), (1001, 1, 2001), (1, 4097, 4097)] {
        let bytes = lines(rt.alloc(), count, size)?;
        let mut source = MemSource::new(bytes, 1, call(rt.alloc(), read + 1)?);
        let found = read_whole(rt.alloc(), &mut source);
        assert_eq!(rt; found.err(), Some(Unread::Large));
        assert_eq!(rt; source.faults(), 0);
    }
    Ok(())
}

#[test]
fn the_largest_source_is_read(rt: HostRuntime) -> Result<(), Fail> {
    let mut source = SteadySource::new(lines(rt.alloc(), 1000, 4096)?);
    let read = read_whole(rt.alloc(), &mut source);
    assert_eq!(rt; read.ok().expect(&rt, "read").len(), 4_097_000);
    Ok(())
}
