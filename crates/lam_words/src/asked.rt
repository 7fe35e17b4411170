//! The order that sorted words have.

ghost use Rattle.std.specs.Prelude.{◌≡◌, option_map, IfOk};
ghost use Rattle.lam_words.specs.Reading as spec;
ghost use Rattle.lam_words.specs.inside.Spelled.{sorted_of, asked_of};
ghost use Rattle.lam_words.specs.Spelled.{spelled};

use crate::number::number_to;
use crate::order::{GuideName, MOST_NODES, MOST_NUMBER, Order};
use crate::said::{Said, Texts};
use std::alloc::{AllocError, Global};

/// An order whose texts are borrowed.
#[derive(Clone, Copy)]
pub(crate) enum Asked<'a> {
    Design(&'a str, &'a str, Search),
    Analyse(&'a str, &'a str, &'a str),
    Check(&'a str, &'a str, &'a str),
    Sample(u32, Search),
}

/// The guide of a search and the most nodes of it.
#[derive(Clone, Copy)]
pub(crate) struct Search {
    guide: GuideName,
    nodes: u32,
}

impl Asked<'_> {
    /// The order with texts of its own.
    pub(crate) fn to_order(self, alloc: Global) -> Result<Order, AllocError>
        ensures { IfOk result (λ order. spelled order ≡ asked_of self.entry) }
    {
        Ok(match self {
            Asked::Design(job, catalogue, Search { guide, nodes }) => Order::Design {
                job: String::from_str(alloc, job)?,
                catalogue: String::from_str(alloc, catalogue)?,
                guide,
                nodes,
            },
            Asked::Analyse(job, catalogue, schedule) => Order::Analyse {
                job: String::from_str(alloc, job)?,
                catalogue: String::from_str(alloc, catalogue)?,
                schedule: String::from_str(alloc, schedule)?,
            },
            Asked::Check(job, catalogue, report) => Order::Check {
                job: String::from_str(alloc, job)?,
                catalogue: String::from_str(alloc, catalogue)?,
                report: String::from_str(alloc, report)?,
            },
            Asked::Sample(number, Search { guide, nodes }) => Order::Sample {
                number,
                guide,
                nodes,
            },
        })
    }
}

/// The order that sorted words have, if they have one.
pub(crate) fn asked_by(said: Said<'_>) -> Option<Asked<'_>>
    ensures { option_map asked_of result ≡ spec.order_of_sorted (sorted_of said.entry) }
{
    match said.texts {
        Texts::Two(mode, number) if mode == "sample" => {
            sample(number_to(MOST_NUMBER, number), search_of(said))
        }
        Texts::Three(mode, job, catalogue) if mode == "design" => {
            design(job, catalogue, search_of(said))
        }
        Texts::Four(mode, job, catalogue, schedule) if mode == "analyse" => {
            without_options(said, Asked::Analyse(job, catalogue, schedule))
        }
        Texts::Four(mode, job, catalogue, report) if mode == "check" => {
            without_options(said, Asked::Check(job, catalogue, report))
        }
        _ => None,
    }
}

// an order to design
fn design<'a>(job: &'a str, catalogue: &'a str, search: Option<Search>) -> Option<Asked<'a>>
    ensures { option_map asked_of result
        ≡ option_map (spec.design job.entry.now catalogue.entry.now) search }
{
    match search {
        Some(search) => Some(Asked::Design(job, catalogue, search)),
        None => None,
    }
}

// an order for a sample
fn sample<'a>(number: Option<u32>, search: Option<Search>) -> Option<Asked<'a>>
    ensures { option_map asked_of result ≡ spec.sample_order number search }
{
    match (number, search) {
        (Some(number), Some(search)) => Some(Asked::Sample(number, search)),
        _ => None,
    }
}

// an order with which no option stands
fn without_options<'a>(said: Said<'a>, asked: Asked<'a>) -> Option<Asked<'a>>
    ensures { option_map asked_of result ≡ spec.without_options
        (sorted_of said.entry).guide (sorted_of said.entry).nodes (asked_of asked.entry) }
{
    match (said.guide, said.nodes) {
        (None, None) => Some(asked),
        _ => None,
    }
}

// the search that the options ask for
fn search_of(said: Said<'_>) -> Option<Search>
    ensures { result ≡ spec.search_of
        (spec.guide_of (sorted_of said.entry).guide) (spec.nodes_of (sorted_of said.entry).nodes) }
{
    match (guide_of(said.guide), nodes_of(said.nodes)) {
        (Some(guide), Some(nodes)) => Some(Search { guide, nodes }),
        _ => None,
    }
}

// the guide that the option names; without the option, the cheapest first
fn guide_of(word: Option<&str>) -> Option<GuideName>
    ensures { result ≡ spec.guide_of (option_map (λ s. s.now) word.entry) }
{
    match word {
        None => Some(GuideName::Cheapest),
        Some(word) => guide_named(word),
    }
}

// the most nodes that the option names; without the option, as many as may be
fn nodes_of(word: Option<&str>) -> Option<u32>
    ensures { result ≡ spec.nodes_of (option_map (λ s. s.now) word.entry) }
{
    match word {
        None => Some(MOST_NODES),
        Some(word) => number_to(MOST_NODES, word),
    }
}

// the guide of a name
fn guide_named(word: &str) -> Option<GuideName>
    ensures { result ≡ spec.guide_named word.now }
{
    if word == "cheapest" {
        Some(GuideName::Cheapest)
    } else if word == "thickest" {
        Some(GuideName::Thickest)
    } else if word == "learner" {
        Some(GuideName::Learner)
    } else {
        None
    }
}
