ghost use Rattle.std.specs.Prelude.{◌≡◌, ℤ, MatchOption, pos};
ghost use Rattle.sg_words.specs.Words.{IsNumberWord};

/// The number of a number word within a range; None exactly where the word is none.
pub fn number_of(word: &[u8], low: i64, high: i64) -> Option<i64>
    ensures { MatchOption result ((z : ℤ) → IsNumberWord low high word.now z → ⊥) (λ z. IsNumberWord low high word.now z) }
{
    match str::from_utf8(word) {
        Ok(text) => number_in(text, low, high),
        Err(_) => None,
    }
}

/// The same from 0 on, for numbers of more bits.
pub fn natural_of(word: &[u8], most: u64) -> Option<u64>
    ensures { MatchOption result ((z : ℤ) → IsNumberWord (pos 0) (pos most) word.now z → ⊥) (λ n. IsNumberWord (pos 0) (pos most) word.now (pos n)) }
{
    match str::from_utf8(word) {
        Ok(text) => natural_in(text, most),
        Err(_) => None,
    }
}

fn number_in(word: &str, low: i64, high: i64) -> Option<i64>
    ensures { MatchOption result ((z : ℤ) → IsNumberWord low high word.now z → ⊥) (λ z. IsNumberWord low high word.now z) }
{
    if word.as_bytes().first() == Some(&b'+') {
        return None;
    }
    match word.parse::<i64>() {
        Ok(z) if z >= low && z <= high => Some(z),
        _ => None,
    }
}

fn natural_in(word: &str, most: u64) -> Option<u64>
    ensures { MatchOption result ((z : ℤ) → IsNumberWord (pos 0) (pos most) word.now z → ⊥) (λ n. IsNumberWord (pos 0) (pos most) word.now (pos n)) }
{
    if word.as_bytes().first() == Some(&b'+') {
        return None;
    }
    match word.parse::<i128>() {
        Ok(z) if z >= 0 && z <= i128::from(most) => Some(z as u64),
        _ => None,
    }
}
