//! Samples: a job and a catalogue that a number gives, as texts of their files.
#![tactic(auto)]

mod draws; // draws from a number
mod items; // the items of a catalogue
mod catalogue; // the text of a catalogue
mod loads; // the loads of a job
mod document; // the document of a job
mod texts; // both texts
mod laws; // what holds of every sample

pub use laws::samples_are_valid;
pub use texts::sample_texts;

#[cfg(test)]
mod tests;
