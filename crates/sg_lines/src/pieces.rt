ghost use Rattle.std.specs.Prelude.{◌≡◌, ◌∷◌, ◌<◌, [], IfOk, IfSome, MatchOption, length};
ghost use Rattle.sg_lines.specs.Lines.{pieces, lines_of, words_in};

use sg_num::Row;
use std::alloc::{AllocError, Global};

/// The first line of a text, and what stands after it; None exactly for the empty text. A line ends with a line feed,
/// which is no byte of it, or at the end of the text.
pub fn first_line(text: &[u8]) -> Option<(&[u8], &[u8])>
    ensures line { MatchOption result (text.now ≡ []) (λ r. lines_of text.now ≡ r.0.now ∷ lines_of r.1.now) }
    ensures shorter { IfSome result (λ r. length r.1.now < length text.now) }
{
    first_piece(text, b'\n')
}

/// The words of a line: what stands between its blanks. The error is out of memory.
pub fn words_of(alloc: Global, line: &[u8]) -> Result<Row<Row<u8>>, AllocError>
    ensures { IfOk result (λ words. words ≡ words_in line.now) }
{
    let mut words = Row::new(alloc);
    let mut rest = line;
    while let Some((word, more)) = first_piece(rest, b' ') {
        if !word.is_empty() {
            words.push(Row::from_slice(alloc, word)?)?;
        }
        rest = more;
    }
    Ok(words)
}

// The piece before the first separator, and what stands after that; None exactly for the empty text.
fn first_piece(text: &[u8], separator: u8) -> Option<(&[u8], &[u8])>
    ensures piece { MatchOption result (text.now ≡ []) (λ r. pieces separator text.now ≡ r.0.now ∷ pieces separator r.1.now) }
    ensures shorter { IfSome result (λ r. length r.1.now < length text.now) }
{
    if text.is_empty() {
        return None;
    }
    for (i, b) in text.iter().enumerate() {
        if *b == separator {
            return Some((&text[..i], &text[i + 1..]));
        }
    }
    Some((text, &text[text.len()..]))
}
