// How schedules are judged, as the words of leaves.

ghost use Rattle.std.specs.Prelude.{◌≡◌, ℕ, ◌≤◌, ◌↔◌, Option, IsTrue};
ghost use Rattle.lam_job.specs.Design as design;
ghost use Rattle.lam_job.specs.Partial.{IsFull, completion};
ghost use Rattle.lam_job.specs.Schedule.{IsJobFor};
ghost use Rattle.lam_judge.specs.inside.Judged.{judged};
ghost use Rattle.lam_judge.specs.inside.Tables.{AreTablesOf};
ghost use Rattle.lam_judge.specs.Judgements.{IsSchedule};
ghost use Rattle.lam_rules.specs.Conditions.{IsPartial};
ghost use Rattle.lam_tree.specs.Words.{IsTrueOf};
ghost use Rattle.lam_tree.specs.Checks.{IsJudged};
ghost use Rattle.lam_answers.specs.inside.Computed.{computed, word_of as word_spec};

use crate::splitting::is_full;
use lam_answers::word_of;
use lam_job::Job;
use lam_judge::{Judgement, Tables, judge_by};
use lam_rules::{Partial, complete};
use lam_stock::{Stack, Stock};
use lam_tree::Word;

/// Tells whether a schedule is not too long and judged so.
pub fn is_judged(job: &Job, stock: &Stock, tables: &Tables, listed: &Stack, word: Word) -> bool
    requires schedule { IsSchedule stock.now job.now listed.now }
    requires tables { AreTablesOf stock.now tables.now }
    ensures value { IsTrue result
        ↔ IsJudged stock.now job.now (computed stock.now job.now) listed.now word }
    ensures so { IsTrue result → word ≡ Word.Admissible
        → design.Admissible stock.now job.now listed.now }
{
    if listed.items().len() > job.limit as usize {
        return false;
    }
    is_word(judge_by(tables, job, stock, listed), word)
}

// tells whether a judgement has this word
fn is_word(judgement: Judgement, word: Word) -> bool
    ensures { IsTrue result ↔ (word_spec judgement ≡ word) }
{
    word_of(judgement) == word
}

/// Tells whether a partial schedule is full, and its completion judged so.
pub fn is_judged_full(
    job: &Job,
    stock: &Stock,
    tables: &Tables,
    partial: &Partial,
    word: Word,
) -> bool
    requires job_for { IsJobFor stock.now job.now }
    requires tables { AreTablesOf stock.now tables.now }
    requires partial { IsPartial stock.now job.now partial.now }
    requires short { partial.now.n ≤ job.now.limit }
    ensures value { IsTrue result ↔ (IsFull job.now partial.now
        × (word_spec (judged stock.now job.now (completion job.now partial.now)) ≡ word)) }
    ensures so { (best : Option ℕ) → IsTrue result → IsTrueOf stock.now job.now
        best partial.now word }
{
    if !is_full(job, partial) {
        return false;
    }
    let listed = complete(job, partial);
    is_word(judge_by(tables, job, stock, &listed), word)
}
