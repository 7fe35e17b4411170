// The lines of a report, each read by itself.

ghost use Rattle.std.specs.Prelude.{◌≡◌, ◌<◌, ◌≤◌, [], length, if◌then◌else◌, IfSome, Some, None};
ghost use Rattle.lam_stock.specs.Field.{is_digit as is_decimal_digit};
ghost use Rattle.lam_tree.specs.ReportRanges.{AreListed};
ghost use Rattle.lam_tree.specs.inside.LineReading.{Reads, first_named};
ghost use Rattle.lam_report.specs.inside.HeadReading.{begins_so, kinds, listed_of, names_in, near_in, number_in, panel_in, ratio_at, ratio_in, ratio_of, thousandths, words_behind};

use lam_job::MOST_PLIES;
use lam_stock::{Stack, Stock, field};
use lam_tree::{LineWords, MOST_COST, MOST_RATIO, Spot, read_number, read_spot};
use std::alloc::Global;

/// What an answer line says.
#[derive(Clone, Copy)]
pub(crate) enum AnswerKind {
    Least,
    NoneMeets,
    OpenBudget,
    OpenStraddle,
}

pub(crate) fn kind_in(line: &[u8]) -> Option<AnswerKind>
    ensures { result ≡ first_named kinds line.now }
{
    if line == b"answer least".as_slice() {
        Some(AnswerKind::Least)
    } else if line == b"answer none".as_slice() {
        Some(AnswerKind::NoneMeets)
    } else if line == b"answer open budget".as_slice() {
        Some(AnswerKind::OpenBudget)
    } else if line == b"answer open straddle".as_slice() {
        Some(AnswerKind::OpenStraddle)
    } else {
        None
    }
}

// the words of a line behind a first one
#[tactic(auto, unfolding(crate::specs::inside::HeadReading::words_behind))]
fn words_behind_word<'a>(word: &[u8], line: &'a [u8]) -> Option<LineWords<'a>>
    ensures { result ≡ words_behind word.now line.now }
{
    let mut words = LineWords::of(line);
    let first = words.next()?;
    if first == word { Some(words) } else { None }
}

/// Tells whether a line begins with a word.
pub(crate) fn begins_with(word: &[u8], line: &[u8]) -> bool
    ensures { result ≡ begins_so (words_behind word.now line.now) }
{
    words_behind_word(word, line).is_some()
}

/// Reads a line of a word and a number.
#[tactic(auto, unfolding(crate::specs::inside::HeadReading::number_in))]
pub(crate) fn number_of_line(word: &[u8], low: u64, high: u64, line: &[u8]) -> Option<u64>
    ensures read { result ≡ number_in word.now low high line.now }
    ensures most { IfSome result (λ n. n ≤ high) }
{
    let mut words = words_behind_word(word, line)?;
    let n = read_number(&mut words, low, high)?;
    if words.is_done() { Some(n) } else { None }
}

/// Reads the line of the ratio of a ply under a case.
#[tactic(auto, unfolding(crate::specs::inside::HeadReading::ratio_in))]
pub(crate) fn ratio_of_line(case: u64, ply: u64, line: &[u8]) -> Option<u16>
    requires case { case < 100 }
    requires ply { ply < 100 }
    ensures { result ≡ ratio_in case ply line.now }
{
    let mut words = words_behind_word(b"ratio".as_slice(), line)?;
    let _case = read_number(&mut words, case + 1, case + 1)?;
    let _ply = read_number(&mut words, ply + 1, ply + 1)?;
    let ratio = ratio(&mut words)?;
    if words.is_done() { Some(ratio) } else { None }
}

/// Reads the line of the ratio of a panel.
#[tactic(auto, unfolding(crate::specs::inside::HeadReading::panel_in))]
pub(crate) fn ratio_of_panel_line(panel: u64, line: &[u8]) -> Option<u16>
    requires { panel < 100 }
    ensures { result ≡ panel_in panel line.now }
{
    let mut words = words_behind_word(b"panel".as_slice(), line)?;
    let _panel = read_number(&mut words, panel + 1, panel + 1)?;
    let ratio = ratio(&mut words)?;
    if words.is_done() { Some(ratio) } else { None }
}

#[tactic(auto, unfolding(crate::specs::inside::HeadReading::ratio_at))]
fn ratio(words: &mut LineWords) -> Option<u16>
    ensures { Reads result words.new (ratio_at words.old) }
{
    let word = words.next()?;
    let ratio = ratio_of_word(word)?;
    Some(ratio)
}

// the ratio in thousandths that a word says
#[tactic(auto, unfolding(crate::specs::inside::HeadReading::ratio_of))]
fn ratio_of_word(word: &[u8]) -> Option<u16>
    ensures { result ≡ ratio_of word.now }
{
    let point = word.len().saturating_sub(4);
    let thousands = field::whole(&word[..point])?;
    let rest = digits_behind_point(&word[point..])?;
    let ratio = thousands * 1000 + rest;
    if ratio > u64::from(MOST_RATIO) {
        return None;
    }
    Some(ratio as u16)
}

// what three digits behind a point say
#[tactic(auto, unfolding(crate::specs::inside::HeadReading::thousandths))]
fn digits_behind_point(end: &[u8]) -> Option<u64>
    ensures value { result ≡ thousandths end.now }
    ensures small { IfSome result (λ n. n < 1000) }
{
    if end.len() != 4 || end[0] != b'.' {
        return None;
    }
    if !is_digit(end[1]) || !is_digit(end[2]) || !is_digit(end[3]) {
        return None;
    }
    let (a, b, c) = (end[1] - b'0', end[2] - b'0', end[3] - b'0');
    Some(u64::from(a) * 100 + u64::from(b) * 10 + u64::from(c))
}

fn is_digit(byte: u8) -> bool
    ensures { result ≡ is_decimal_digit byte }
{
    byte >= b'0' && byte <= b'9'
}

/// Reads a line of a word and the names of plies.
#[tactic(auto, unfolding(crate::specs::inside::HeadReading::names_in))]
pub(crate) fn names_of_line(word: &[u8], stock: &Stock, alloc: Global, line: &[u8]) -> Option<Stack>
    ensures read { result ≡ names_in word.now stock.now line.now }
    ensures range { IfSome result (AreListed stock.now) }
{
    let mut words = words_behind_word(word, line)?;
    let plies = listed(&mut words, stock, alloc)?;
    Some(plies)
}

// 1 to 56 names of plies
fn listed(words: &mut LineWords, stock: &Stock, alloc: Global) -> Option<Stack>
    ensures read { result ≡ listed_of stock.now words.old }
    ensures range { IfSome result (AreListed stock.now) }
{
    let mut plies = Stack::new(alloc);
    if fill(&mut plies, words, stock) {
        Some(plies)
    } else {
        None
    }
}

// tells whether these are the names of 1 to 56 plies, and lists them
fn fill(plies: &mut Stack, words: &mut LineWords, stock: &Stock) -> bool
    requires { plies.old ≡ [] }
    ensures { listed_of stock.now words.old ≡ (if result then Some plies.new else None) }
{
    for place in 0..MOST_PLIES {
        let Some(name) = words.next() else {
            if place > 0 {
                return true;
            }
            return false;
        };
        let Some(item) = stock.find(name) else {
            return false;
        };
        plies.push(item);
    }
    if words.is_done() {
        return true;
    }
    false
}

/// Reads the line of the cost of a schedule and of where it straddles.
#[tactic(auto, unfolding(crate::specs::inside::HeadReading::near_in))]
pub(crate) fn near_of_line(line: &[u8]) -> Option<(u64, Spot)>
    ensures { result ≡ near_in line.now }
{
    let mut words = words_behind_word(b"near".as_slice(), line)?;
    let cost = read_number(&mut words, 0, MOST_COST)?;
    let at = read_spot(&mut words)?;
    if words.is_done() {
        Some((cost, at))
    } else {
        None
    }
}
