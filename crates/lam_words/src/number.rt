//! A number of 1 and more, as it is written.

ghost use Rattle.std.specs.Prelude.{◌≡◌};
ghost use Rattle.lam_words.specs.Numbers as spec;

/// The number that a word writes in digits, the first of them not 0, where it is at most `most`.
pub(crate) fn number_to(most: u32, word: &str) -> Option<u32>
    ensures { result ≡ spec.number_to most word.now }
{
    if !begins_above_zero(word) {
        return None;
    }
    match word.parse::<u32>() {
        Ok(number) => at_most(most, number),
        Err(_) => None,
    }
}

// whether the first byte is a digit 1 to 9
fn begins_above_zero(word: &str) -> bool
    ensures { result ≡ spec.begins_above_zero word.now }
{
    match word.as_bytes() {
        [first, ..] => *first >= b'1' && *first <= b'9',
        [] => false,
    }
}

// the number, where it is at most `most`
fn at_most(most: u32, number: u32) -> Option<u32>
    ensures { result ≡ spec.at_most most number }
{
    if number <= most { Some(number) } else { None }
}
