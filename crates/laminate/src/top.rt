//! The top call: from the words and the files to the text and the status.

ghost use Rattle.std.specs.Prelude.{◌≡◌, ◌⊎◌, ◌<◌, ◌^◌, length, slice_get, All, None, Some, Option};
ghost use Rattle.lam_words.specs.Reading.{OrderWords};
ghost use Rattle.lam_words.specs.Spelled.{spelled};
ghost use Rattle.laminate.specs.Answers.{MayEnd};
ghost use Rattle.laminate.specs.Ending.{Ending, EndsAs, MustAccept, MustAnswer, MustRefuse};
ghost use Rattle.laminate.specs.Faults.{fault_line, fault_status};
ghost use Rattle.laminate.specs.Orders.{order_of};
ghost use Rattle.laminate.specs.Outside.{IsSteady, SinkStays, outside, sink_seen};
ghost use Rattle.laminate.specs.declared.fault.Fault.{Fault};
ghost use Rattle.laminate.specs.inside.Budgets.{HasBudget, ReadsBudget};
ghost use Rattle.laminate.specs.inside.Guides.{place_of as place_spec};
ghost use Rattle.laminate.specs.inside.Steps.{Does, IsRead, WritesLine, WritesText};

use crate::fault::{Fault, Stop};
use crate::modes::{analyse, check, design, sample};
use crate::status::Status;
use lam_guide::Guide;
use lam_outside::{Files, Sink, put_text};
use lam_words::{GuideName, Order, WordsError, read_words};
use std::alloc::Global;

/// Does what the words ask for, and says how it ended. Nothing is written before the whole answer
/// is known. The guides are those of the names that the words may give, in their order; a search is
/// advised by the one that the words name. Those that the order does not need are dropped before a
/// file is taken, and that one before the run ends.
pub fn run<F: Files, K: Sink>(
    alloc: Global,
    words: &[String],
    files: &mut F,
    sink: &mut K,
    guides: Vec<Box<dyn Guide>>,
) -> Status
    requires three { length guides.items ≡ 3 }
    requires quiet { All (λ g. heard_count g < 2 ^ 62) guides.items }
    ensures steady { IsSteady (outside F.contents F.faults K.written K.faults K.stalls K.terms
        files.old files.new sink.old sink.new) }
    ensures ending { Ending (outside F.contents F.faults K.written K.faults K.stalls K.terms
        files.old files.new sink.old sink.new) (order_of words.now) result }
    ensures usage { order_of words.now ≡ None → EndsAs Status.Usage result }
    ensures refused { (o : OrderWords) (fault : Fault) → order_of words.now ≡ Some o
        → MustRefuse (outside F.contents F.faults K.written K.faults K.stalls K.terms
        files.old files.new sink.old sink.new) o fault → EndsAs Status.Refused result }
    ensures complete { (o : OrderWords) → order_of words.now ≡ Some o
        → MustAnswer (outside F.contents F.faults K.written K.faults K.stalls K.terms
        files.old files.new sink.old sink.new) o → MayEnd o result ⊎ (result ≡ Status.Memory) }
    ensures accepted { (o : OrderWords) → order_of words.now ≡ Some o
        → MustAccept (outside F.contents F.faults K.written K.faults K.stalls K.terms
        files.old files.new sink.old sink.new) o → EndsAs Status.Done result }
{
    let order = read_words(alloc, words);
    respond(alloc, order, files, sink, guides)
}

/// Does what words ask for that were read, or writes that they have no reading.
fn respond<F: Files, K: Sink>(
    alloc: Global,
    order: Result<Order, WordsError>,
    files: &mut F,
    sink: &mut K,
    guides: Vec<Box<dyn Guide>>,
) -> Status
    requires budget { ReadsBudget order }
    requires three { length guides.items ≡ 3 }
    requires quiet { All (λ g. heard_count g < 2 ^ 62) guides.items }
    ensures steady { IsSteady (outside F.contents F.faults K.written K.faults K.stalls K.terms
        files.old files.new sink.old sink.new) }
    ensures ending { (asked : Option OrderWords) → IsRead order asked
        → Ending (outside F.contents F.faults K.written K.faults K.stalls K.terms
        files.old files.new sink.old sink.new) asked result }
{
    match order {
        Ok(order) => obey(alloc, &order, files, sink, guides),
        Err(error) => {
            drop(guides);
            match error {
                WordsError::Usage => write_fault(alloc, &Fault::Usage, sink),
                WordsError::Memory => Status::Memory,
            }
        }
    }
}

/// Does what an order asks for, and says how it ended.
fn obey<F: Files, K: Sink>(
    alloc: Global,
    order: &Order,
    files: &mut F,
    sink: &mut K,
    guides: Vec<Box<dyn Guide>>,
) -> Status
    requires budget { HasBudget (spelled order.now) }
    requires three { length guides.items ≡ 3 }
    requires quiet { All (λ g. heard_count g < 2 ^ 62) guides.items }
    ensures steady { IsSteady (outside F.contents F.faults K.written K.faults K.stalls K.terms
        files.old files.new sink.old sink.new) }
    ensures ending { Ending (outside F.contents F.faults K.written K.faults K.stalls K.terms
        files.old files.new sink.old sink.new) (Some (spelled order.now)) result }
{
    match answer(alloc, order, files, sink, guides) {
        Ok(status) => status,
        Err(Stop::Fault(fault)) => write_fault(alloc, &fault, sink),
        Err(Stop::Memory) => Status::Memory,
    }
}

/// The answer to an order, by its mode. The guides that it doesn't need are dropped first.
fn answer<F: Files, K: Sink>(
    alloc: Global,
    order: &Order,
    files: &mut F,
    sink: &mut K,
    guides: Vec<Box<dyn Guide>>,
) -> Result<Status, Stop>
    requires budget { HasBudget (spelled order.now) }
    requires three { length guides.items ≡ 3 }
    requires quiet { All (λ g. heard_count g < 2 ^ 62) guides.items }
    ensures steady { IsSteady (outside F.contents F.faults K.written K.faults K.stalls K.terms
        files.old files.new sink.old sink.new) }
    ensures does { Does (outside F.contents F.faults K.written K.faults K.stalls K.terms
        files.old files.new sink.old sink.new) (Some (spelled order.now)) result }
{
    match order {
        Order::Design {
            job,
            catalogue,
            guide,
            nodes,
        } => {
            let mut guide = kept(guides, *guide);
            design::answer(
                alloc,
                files,
                sink,
                job.as_str(),
                catalogue.as_str(),
                *nodes,
                &mut guide,
            )
        }
        Order::Analyse {
            job,
            catalogue,
            schedule,
        } => {
            drop(guides);
            analyse::answer(
                alloc,
                files,
                sink,
                job.as_str(),
                catalogue.as_str(),
                schedule.as_str(),
            )
        }
        Order::Check {
            job,
            catalogue,
            report,
        } => {
            drop(guides);
            check::answer(
                alloc,
                files,
                sink,
                job.as_str(),
                catalogue.as_str(),
                report.as_str(),
            )
        }
        Order::Sample {
            number,
            guide,
            nodes,
        } => {
            let mut guide = kept(guides, *guide);
            sample::answer(alloc, sink, *number, *nodes, &mut guide)
        }
    }
}

/// The guide of a name. The others are dropped.
fn kept(guides: Vec<Box<dyn Guide>>, name: GuideName) -> Box<dyn Guide>
    requires three { length guides.items ≡ 3 }
    requires quiet { All (λ g. heard_count g < 2 ^ 62) guides.items }
    ensures named { slice_get guides.items (place_spec name) ≡ Some result }
    ensures quiet { heard_count result < 2 ^ 62 }
{
    let mut guides = guides;
    guides.swap_remove(place_of(name))
}

/// The place of a guide among those that are handed in.
fn place_of(name: GuideName) -> usize
    ensures value { result ≡ place_spec name }
    ensures few { result < 3 }
{
    match name {
        GuideName::Cheapest => 0,
        GuideName::Thickest => 1,
        GuideName::Learner => 2,
    }
}

/// Writes the line of a fault, and says how the run ends.
fn write_fault<K: Sink>(alloc: Global, fault: &Fault, sink: &mut K) -> Status
    ensures steady { SinkStays (sink_seen K.written K.faults K.stalls K.terms sink.old)
        (sink_seen K.written K.faults K.stalls K.terms sink.new) }
    ensures writes { WritesLine fault.now result
        (sink_seen K.written K.faults K.stalls K.terms sink.old)
        (sink_seen K.written K.faults K.stalls K.terms sink.new) sink.old sink.new }
{
    match format!(in alloc; "{fault}\n") {
        Ok(line) => write_text(fault.status(), line.as_bytes(), sink),
        Err(_) => Status::Memory,
    }
}

/// Writes a text that is due with a status, and says how the run ends.
pub fn write_text<K: Sink>(due: Status, text: &[u8], sink: &mut K) -> Status
    ensures steady { SinkStays (sink_seen K.written K.faults K.stalls K.terms sink.old)
        (sink_seen K.written K.faults K.stalls K.terms sink.new) }
    ensures writes { WritesText due text.now result
        (sink_seen K.written K.faults K.stalls K.terms sink.old)
        (sink_seen K.written K.faults K.stalls K.terms sink.new) }
{
    match put_text(sink, text) {
        Ok(()) => due,
        Err(_) => Status::WriteFault,
    }
}

#[cfg(test)]
mod tests;
