ghost use Rattle.std.specs.Prelude.{◌≡◌, ◌≤◌, ◌↔◌, ◌∷◌, ℕ, List, IsTrue, MatchOption, codes, length};
ghost use Rattle.sg_words.specs.Words.{IsCommand, IsNoCommand, IsBatchWord, IsGenWords, after_with};

use crate::Command;
use crate::number::{natural_of, number_of};
use sg_num::Row;

/// How many words there may be from `with` on.
const MOST_NAMING: usize = 9;

/// The command that the words are, its first text and its further ones; None exactly where they are none.
pub fn command_of(words: &[Row<u8>]) -> Option<(Command, &Row<u8>, &[Row<u8>])>
    ensures { MatchOption result (IsNoCommand words.now) (λ r. IsCommand words.now r.0 (r.1.now ∷ r.2.now)) }
{
    match words {
        [] => None,
        [word, rest @ ..] => {
            if word.as_slice() == b"sum".as_slice() {
                sum_command(rest)
            } else if word.as_slice() == b"simplify".as_slice() {
                simplify_command(rest)
            } else if word.as_slice() == b"check".as_slice() {
                check_command(rest)
            } else if word.as_slice() == b"value".as_slice() {
                value_command(rest)
            } else if word.as_slice() == b"tower".as_slice() {
                tower_command(rest)
            } else {
                None
            }
        }
    }
}

/// Whether the words ask for the answers to the lines of a source.
pub fn is_batch(words: &[Row<u8>]) -> bool
    ensures { IsTrue result ↔ IsBatchWord words.now }
{
    words.len() == 1 && words[0].as_slice() == b"batch".as_slice()
}

/// The seed and the count where the words ask for the sums of samples; None exactly where they don't.
pub fn gen_of(words: &[Row<u8>]) -> Option<(u64, u32)>
    ensures { MatchOption result ((seed count : ℕ) → IsGenWords words.now seed count → ⊥) (λ r. IsGenWords words.now r.0 r.1) }
{
    if words.len() != 3 || words[0].as_slice() != b"gen".as_slice() {
        return None;
    }
    let seed = natural_of(words[1].as_slice(), u64::MAX)?;
    let count = natural_of(words[2].as_slice(), 1000)?;
    Some((seed, count as u32))
}

// `sum`, and then these words.
fn sum_command(rest: &[Row<u8>]) -> Option<(Command, &Row<u8>, &[Row<u8>])>
    ensures { MatchOption result (IsNoCommand (codes "sum" ∷ rest.now)) (λ r. IsCommand (codes "sum" ∷ rest.now) r.0 (r.1.now ∷ r.2.now)) }
{
    if rest.len() < 2 {
        return None;
    }
    let lower = number_of(rest[0].as_slice(), -1000, 1000)?;
    let others = further_texts(&rest[2..])?;
    Some((Command::Sum { lower }, &rest[1], others))
}

// The texts after `with`, which ends the words where there are none; None exactly where the words aren't this.
fn further_texts(words: &[Row<u8>]) -> Option<&[Row<u8>]>
    ensures { MatchOption result ((texts : List (List ℕ)) → words.now ≡ after_with texts → length texts ≤ 8 → ⊥)
        (λ r. (words.now ≡ after_with r.now) × (length r.now ≤ 8)) }
{
    if words.is_empty() {
        return Some(words);
    }
    if words.len() < 2 || words.len() > MOST_NAMING || words[0].as_slice() != b"with".as_slice() {
        return None;
    }
    Some(&words[1..])
}

// `tower`, and then these words.
fn tower_command(rest: &[Row<u8>]) -> Option<(Command, &Row<u8>, &[Row<u8>])>
    ensures { MatchOption result (IsNoCommand (codes "tower" ∷ rest.now)) (λ r. IsCommand (codes "tower" ∷ rest.now) r.0 (r.1.now ∷ r.2.now)) }
{
    if rest.len() != 1 {
        return None;
    }
    Some((Command::Tower, &rest[0], &rest[1..]))
}

// `simplify`, and then these words.
fn simplify_command(rest: &[Row<u8>]) -> Option<(Command, &Row<u8>, &[Row<u8>])>
    ensures { MatchOption result (IsNoCommand (codes "simplify" ∷ rest.now)) (λ r. IsCommand (codes "simplify" ∷ rest.now) r.0 (r.1.now ∷ r.2.now)) }
{
    if rest.len() != 2 {
        return None;
    }
    let lower = number_of(rest[0].as_slice(), -1000, 1000)?;
    Some((Command::Simplify { lower }, &rest[1], &rest[2..]))
}

// `check`, and then these words.
fn check_command(rest: &[Row<u8>]) -> Option<(Command, &Row<u8>, &[Row<u8>])>
    ensures { MatchOption result (IsNoCommand (codes "check" ∷ rest.now)) (λ r. IsCommand (codes "check" ∷ rest.now) r.0 (r.1.now ∷ r.2.now)) }
{
    if rest.len() != 3 {
        return None;
    }
    let lower = number_of(rest[0].as_slice(), -1000, 1000)?;
    Some((Command::Check { lower }, &rest[1], &rest[2..]))
}

// `value`, and then these words.
fn value_command(rest: &[Row<u8>]) -> Option<(Command, &Row<u8>, &[Row<u8>])>
    ensures { MatchOption result (IsNoCommand (codes "value" ∷ rest.now)) (λ r. IsCommand (codes "value" ∷ rest.now) r.0 (r.1.now ∷ r.2.now)) }
{
    if rest.len() == 2 {
        let point = number_of(rest[0].as_slice(), -100_000, 100_000)?;
        return Some((Command::Value { point }, &rest[1], &rest[2..]));
    }
    if rest.len() == 3 {
        let point = number_of(rest[0].as_slice(), -100_000, 100_000)?;
        let parameter = number_of(rest[1].as_slice(), 0, 100_000)?;
        return Some((
            Command::ValueAtParameter { parameter, point },
            &rest[2],
            &rest[3..],
        ));
    }
    None
}
