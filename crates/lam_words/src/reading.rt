//! The order of words.

ghost use Rattle.std.specs.Prelude.{◌≡◌, ◌↔◌, map, string_bytes, Some, None, IfOk, is_some};
ghost use Rattle.lam_words.specs.Reading.{reading};
ghost use Rattle.lam_words.specs.Spelled.{spelled};

use crate::asked::asked_by;
use crate::command::said_by_clap;
use crate::order::{Order, WordsError};
use crate::sorting::sorted;
use std::alloc::Global;

/// Reads the words that follow the program's name.
pub fn read_words(alloc: Global, words: &[String]) -> Result<Order, WordsError>
    ensures order { IfOk result
        (λ order. reading (map string_bytes words.now) ≡ Some (spelled order)) }
    ensures usage { (result ≡ Err WordsError.Usage)
        ↔ (reading (map string_bytes words.now) ≡ None) }
{
    if !has_reading(words) {
        return Err(WordsError::Usage);
    }
    let said = match said_by_clap(alloc, words) {
        Ok(said) => said,
        Err(_) => return Err(WordsError::Memory),
    };
    let asked = match asked_by(said) {
        Some(asked) => asked,
        None => unreachable!(),
    };
    match asked.to_order(alloc) {
        Ok(order) => Ok(order),
        Err(_) => Err(WordsError::Memory),
    }
}

// whether the words have a reading
fn has_reading(words: &[String]) -> bool
    ensures { result ≡ is_some (reading (map string_bytes words.now)) }
{
    match sorted(words) {
        Some(said) => match asked_by(said) {
            Some(_) => true,
            None => false,
        },
        None => false,
    }
}
