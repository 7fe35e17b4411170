//! What is computed of a job and its catalogue, as a search and a checker both compute it: the
//! definitions that tie them, and what they say of a schedule that is judged.
#![tactic(auto)]

mod words; // the word of a judgement

pub use words::word_of;
