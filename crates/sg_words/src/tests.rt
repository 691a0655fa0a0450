use crate::{Command, command_of, gen_of, is_batch};
use sg_num::Row;
use std::alloc::{AllocError, Global};
use std::test::Fail;

fn words_of(alloc: Global, line: &str) -> Result<Row<Row<u8>>, AllocError> {
    let mut words = Row::new(alloc);
    for part in line.split(' ') {
        let mut word = Row::new(alloc);
        for b in part.as_bytes() {
            word.push(*b)?;
        }
        words.push(word)?;
    }
    Ok(words)
}

// The command, the length of its first text, and the number of further ones.
fn found(alloc: Global, line: &str) -> Result<Option<(Command, usize, usize)>, AllocError> {
    let words = words_of(alloc, line)?;
    match command_of(words.as_slice()) {
        Some((command, first, further)) => Ok(Some((command, first.len(), further.len()))),
        None => Ok(None),
    }
}

#[test]
fn words_are_commands(rt: HostRuntime) -> Result<(), Fail> {
    for (line, want) in [
        ("sum 1 k", Some((Command::Sum { lower: 1 }, 1, 0))),
        ("sum -0007 k", Some((Command::Sum { lower: -7 }, 1, 0))),
        ("sum 1 k with g", Some((Command::Sum { lower: 1 }, 1, 1))),
        (
            "sum 1 k with a b c d e f g h",
            Some((Command::Sum { lower: 1 }, 1, 8)),
        ),
        ("sum 1 with", Some((Command::Sum { lower: 1 }, 4, 0))),
        ("sum 1 k with a b c d e f g h i", None),
        ("sum 1 k with", None),
        ("sum 1 k width g", None),
        ("sum 1001 k", None),
        ("sum +1 k", None),
        ("sum 1 k k", None),
        ("sum 1", None),
        (
            "value 100000 k",
            Some((Command::Value { point: 100_000 }, 1, 0)),
        ),
        (
            "value 3 5 k",
            Some((
                Command::ValueAtParameter {
                    parameter: 5,
                    point: 3,
                },
                1,
                0,
            )),
        ),
        (
            "simplify -1000 k",
            Some((Command::Simplify { lower: -1000 }, 1, 0)),
        ),
        ("simplify 1 k k", None),
        ("tower H(k)", Some((Command::Tower, 4, 0))),
        ("tower", None),
        ("tower 1 H(k)", None),
        ("check 1 f g", Some((Command::Check { lower: 1 }, 1, 1))),
        ("check 1 f", None),
        ("value 3 -5 k", None),
        ("total 1 k", None),
    ] {
        assert_eq!(rt; found(rt.alloc(), line)?, want, "{line}");
    }
    Ok(())
}

#[test]
fn words_are_batches_and_samples(rt: HostRuntime) -> Result<(), Fail> {
    for (line, batch, sampled) in [
        ("batch", true, None),
        ("batch batch", false, None),
        ("gen 5 0", false, Some((5, 0))),
        ("gen -0 1000", false, Some((0, 1000))),
        (
            "gen 18446744073709551615 1",
            false,
            Some((18_446_744_073_709_551_615, 1)),
        ),
        ("gen 18446744073709551616 1", false, None),
        ("gen 1 1001", false, None),
        ("gen 1 \u{e9}", false, None),
        ("gen 1", false, None),
    ] {
        let words = words_of(rt.alloc(), line)?;
        assert_eq!(rt; is_batch(words.as_slice()), batch, "{line}");
        assert_eq!(rt; gen_of(words.as_slice()), sampled, "{line}");
        assert!(rt; command_of(words.as_slice()).is_none(), "{line}");
    }
    Ok(())
}
