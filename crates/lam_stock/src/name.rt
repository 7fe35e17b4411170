// Names of items.

ghost use Rattle.std.specs.Prelude.{◌≡◌, ◌≤◌, length, IsTrue, Some, None, if◌then◌else◌};
ghost use Rattle.std.specs.List.{list_all};
ghost use Rattle.lam_stock.specs.Field.{is_name};

use crate::field::{is_digit, is_letter};
use std::marker::Model;

/// The greatest length of a name.
const LONGEST: usize = 16;

/// The name of a catalogue item: 1 to 16 letters `a` to `z`, digits, `_` and `-`, the first a
/// letter.
#[derive(Drop)]
pub struct Name {
    bytes: [u8; 16],
    len: u8,
}

impl Model for Name {
    ghost use Rattle.std.specs.Prelude.{◌≤◌, ℕ, List, take, IsTrue};
    ghost use Rattle.lam_stock.specs.Field.{is_name};

    ghost Value = { List ℕ };

    ghost view = { λ n. take n.len n.bytes };

    ghost invariant = { λ n. (n.len ≤ 16) × IsTrue (is_name (take n.len n.bytes)) };
}

impl Name {
    /// Reads a field as a name.
    pub fn read(field: &[u8]) -> Option<Name>
        ensures { result ≡ (if is_name field.now then Some field.now else None) }
    {
        if !names(field) {
            return None;
        }
        let mut bytes = [0; LONGEST];
        bytes[..field.len()].copy_from_slice(field);
        Some(Name {
            bytes,
            len: field.len() as u8,
        })
    }

    /// The letters of the name.
    pub fn as_bytes(&self) -> &[u8]
        ensures bytes { result.now ≡ self.now }
        ensures name { IsTrue (is_name self.now) }
    {
        &self.bytes[..self.len as usize]
    }
}

// tells whether a field is a name
fn names(field: &[u8]) -> bool
    ensures tells { result ≡ is_name field.now }
    ensures short { IsTrue result → length field.now ≤ 16 }
{
    if !begins_with_letter(field) || field.len() > LONGEST {
        return false;
    }
    all_name_bytes(field)
}

// tells whether each byte of a field may stand in a name
fn all_name_bytes(field: &[u8]) -> bool
    ensures { result ≡ list_all allowed field.now }
{
    field.iter().all(|b| is_name_byte(*b))
}

ghost use Rattle.lam_stock.specs.Field.{begins_with, is_letter as letter, is_name_byte as allowed};

// tells whether a field begins with a letter
fn begins_with_letter(field: &[u8]) -> bool
    ensures { result ≡ begins_with letter field.now }
{
    match field {
        [first, ..] => is_letter(*first),
        [] => false,
    }
}

// tells whether a byte may stand in a name
fn is_name_byte(byte: u8) -> bool
    ensures { result ≡ allowed byte }
{
    is_letter(byte) || is_digit(byte) || byte == b'_' || byte == b'-'
}
