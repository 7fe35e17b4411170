//! The plies that a schedule word lists.

ghost use Rattle.std.specs.Prelude.{◌≡◌, ◌≤◌, ◌<◌, ◌==◌, length, count_by};
ghost use Rattle.laminate.specs.Schedule.{names_of, plies_named, schedule_of};
ghost use Rattle.laminate.specs.inside.Listing.{Lists};

use crate::fault::ScheduleFault;
use lam_job::MOST_PLIES;
use lam_stock::{Stack, Stock};
use std::alloc::Global;

/// The plies that a schedule word lists, from the inside of the wall to the outside.
pub fn listed_by(alloc: Global, stock: &Stock, word: &str) -> Result<Stack, ScheduleFault>
    ensures { result ≡ schedule_of stock.now word.now }
{
    if word.is_empty() {
        return Err(ScheduleFault::Empty);
    }
    if commas(word.as_bytes()) >= usize::from(MOST_PLIES) {
        return Err(ScheduleFault::Many);
    }
    plies_of(alloc, stock, word)
}

/// How many commas there are.
fn commas(bytes: &[u8]) -> usize
    ensures { result ≡ count_by (λ c. c == 44) bytes.now }
{
    bytes.iter().filter(|byte| **byte == b',').count()
}

/// The plies that the names of a word list.
fn plies_of(alloc: Global, stock: &Stock, word: &str) -> Result<Stack, ScheduleFault>
    requires { length (names_of word.now) ≤ MOST_PLIES }
    ensures { result ≡ plies_named stock.now (names_of word.now) }
{
    let mut listed = Stack::new(alloc);
    for name in word.split(',') {
        if let Err(fault) = list(stock, &mut listed, name) {
            return Err(fault);
        }
    }
    Ok(listed)
}

/// Lists the item of a name behind those that are listed.
fn list(stock: &Stock, listed: &mut Stack, name: &str) -> Result<(), ScheduleFault>
    requires { length listed.old < MOST_PLIES }
    ensures { Lists stock.now name.now listed.old listed.new result }
{
    let number = listed.items().len() as u8 + 1;
    match stock.find(name.as_bytes()) {
        Some(item) => {
            listed.push(item);
            Ok(())
        }
        None => Err(ScheduleFault::Name(number)),
    }
}
