//! The analysis of the schedule that a word names.

ghost use Rattle.std.specs.Prelude.{Some, ℕ, List};
ghost use Rattle.lam_job.specs.Schedule.{IsJobFor};
ghost use Rattle.lam_words.specs.Reading.{analyse};
ghost use Rattle.laminate.specs.Outside.{IsSteady, SinkStays, outside, sink_seen};
ghost use Rattle.laminate.specs.inside.Analysed.{AnalysesTo, IsComputed, IsTextOf};
ghost use Rattle.laminate.specs.inside.Steps.{Does, WritesText};

use crate::fault::{Fault, ScheduleFault, Stop};
use crate::input::{Input, take_input};
use crate::range::first_out;
use crate::schedule::listed_by;
use crate::status::Status;
use lam_judge::{Room, ratios};
use lam_outside::{Files, Sink};
use lam_report::write_analysis;
use lam_stock::Stack;
use std::alloc::Global;

/// An analysis, before it is written: the schedule, and its printed ratios.
#[derive(Drop)]
struct Analysis {
    input: Input,
    listed: Stack,
    room: Room,
}

/// Takes the files of an order, and analyses the schedule that the word names.
pub fn answer<F: Files, K: Sink>(
    alloc: Global,
    files: &mut F,
    sink: &mut K,
    job: &str,
    catalogue: &str,
    schedule: &str,
) -> Result<Status, Stop>
    ensures steady { IsSteady (outside F.contents F.faults K.written K.faults K.stalls K.terms
        files.old files.new sink.old sink.new) }
    ensures does { Does (outside F.contents F.faults K.written K.faults K.stalls K.terms
        files.old files.new sink.old sink.new)
        (Some (analyse job.now catalogue.now schedule.now)) result }
{
    match take_input(alloc, files, job, catalogue) {
        Err(stop) => Err(stop),
        Ok(input) => match analysis_of(alloc, input, schedule) {
            Err(stop) => Err(stop),
            Ok(analysis) => Ok(write(&analysis, sink)),
        },
    }
}

/// The analysis of the schedule that a word names.
fn analysis_of(alloc: Global, input: Input, schedule: &str) -> Result<Analysis, Stop>
    requires { IsJobFor input.stock input.job }
    ensures { AnalysesTo input schedule.now result }
{
    let listed = match listed_by(alloc, &input.stock, schedule) {
        Ok(listed) => listed,
        Err(fault) => return Err(Stop::Fault(Fault::Schedule(fault))),
    };
    match first_out(&input.job, &input.stock, &listed) {
        Some(case) => Err(Stop::Fault(Fault::Schedule(ScheduleFault::Range(case + 1)))),
        None => match Room::new(alloc) {
            Ok(mut room) => {
                ratios(&input.job, &input.stock, &listed, &mut room);
                Ok(Analysis {
                    input,
                    listed,
                    room,
                })
            }
            Err(_) => Err(Stop::Memory),
        },
    }
}

/// Writes an analysis, and says how the run ends.
fn write<K: Sink>(analysis: &Analysis, sink: &mut K) -> Status
    requires { IsComputed analysis.now }
    ensures steady { SinkStays (sink_seen K.written K.faults K.stalls K.terms sink.old)
        (sink_seen K.written K.faults K.stalls K.terms sink.new) }
    ensures writes { (text : List ℕ) × IsTextOf analysis.now text × WritesText Status.Done text result
        (sink_seen K.written K.faults K.stalls K.terms sink.old)
        (sink_seen K.written K.faults K.stalls K.terms sink.new) }
{
    let Analysis {
        input,
        listed,
        room,
    } = analysis;
    match write_analysis(&input.job, &input.stock, listed, room, sink) {
        Ok(()) => Status::Done,
        Err(_) => Status::WriteFault,
    }
}
