//! Jobs with one change each, and the first fault that each is refused for. The rows of a test are
//! a text, parted by blank lines: what is changed => the cells that stand for it => the fault.
//! ` & ` parts cells, and ` * ` a cell from how often it stands.

use crate::fault::{JobCause, JobError, JobFault, JobKey};
use crate::read_job;
use crate::reading::texts::{key_text, table_text};
use lam_stock::{Stock, read_stock};
use std::alloc::Global;
use std::test::Fail;

// two items: 0 mat, 1 stiff
const CATALOGUE: &str = "name,kind,e1,e2,n12,g12,xt,xc,yt,yc,s,f12,t,p,q,h,cost\n\
mat,ply,10000,10000,0,5000,100000,100000,100000,100000,50000,0,5000,1,0,1,10\n\
stiff,ply,20000,20000,0,10000,100000,100000,100000,100000,50000,0,5000,1,0,1,20\n";

// a job with every key; no line stands in it twice
const WHOLE: &str = "version = 1
limit = 9
[liner]
plies = ['stiff', 'mat']
in_wall = true
[rules]
inner = ['mat', 'stiff']
outer = ['stiff']
symmetric = true
balanced = false
run = 3
fewest = 2
thickness = 15000
[rules.counts]
stiff = 1
mat = 6
[[case]]
kind = 'resultants'
nx = -1
ny = 90000
nxy = 7
mx = 11
my = -12
mxy = 13
factor = 5000
[[case]]
kind = 'cylinder'
mx = 21
my = 22
pressure = 300
diameter = 2000
ends = 'open'
axial = -10000
factor = 10000
[[panel]]
length = 500
width = 400
load = 50000
factor = 2000
";

// a job with no more than it has to have
const LEAST: &str = "version = 1
limit = 4
[[case]]
kind = 'resultants'
factor = 5000
";

fn catalogue(alloc: Global) -> Result<Stock, Fail> {
    Ok(read_stock(alloc, CATALOGUE.as_bytes())?)
}

fn cause_word(cause: JobCause) -> &'static str {
    match cause {
        JobCause::Text => "text",
        JobCause::Missing => "missing",
        JobCause::Kind => "kind",
        JobCause::Range => "range",
        JobCause::Item => "item",
        JobCause::Unknown => "unknown",
    }
}

// a fault in words: its table, number, key and cause
fn words(alloc: Global, fault: &JobFault) -> Result<String, Fail> {
    let place = fault.place;
    let table = table_text(place.table);
    let key = if place.key == JobKey::Other {
        "-"
    } else {
        key_text(place.key)
    };
    let cause = cause_word(fault.cause);
    Ok(format!(in alloc; "{table} {} {key} {cause}", place.number)?)
}

// the first fault of a job's bytes, in words; `fine` where there is none
fn told(alloc: Global, stock: &Stock, bytes: &[u8]) -> Result<String, Fail> {
    match read_job(alloc, bytes, stock) {
        Ok(_) => Ok(String::from_str(alloc, "fine")?),
        Err(JobError::Refused(fault)) => words(alloc, &fault),
        Err(JobError::Memory) => Ok(String::from_str(alloc, "memory")?),
    }
}

// puts a cell of a row behind a text: a part, or one so many times
fn push_cell(text: &mut String, cell: &str) -> Result<(), Fail> {
    let (part, times) = cell.split_once(" * ").unwrap_or((cell, "1"));
    for _ in 0..times.parse::<u32>()? {
        text.push_str(part)?;
    }
    Ok(())
}

// a text with one part changed for cells
fn changed(alloc: Global, text: &str, old: &str, new: &str) -> Result<String, Fail> {
    let (before, after) = text.split_once(old).ok_or("absent")?;
    let mut changed = String::from_str(alloc, before)?;
    for cell in new.split(" & ") {
        push_cell(&mut changed, cell)?;
    }
    changed.push_str(after)?;
    Ok(changed)
}

// tells whether a job with the change of a row has the row's fault
fn is_told(alloc: Global, stock: &Stock, text: &str, row: &str) -> Result<bool, Fail> {
    let (old, rest) = row.split_once(" => ").ok_or("no change")?;
    let (new, fault) = rest.split_once(" => ").ok_or("no fault")?;
    let job = changed(alloc, text, old, new)?;
    Ok(told(alloc, stock, job.as_bytes())?.as_str() == fault)
}

// the first row whose fault is not told; empty where there is none
fn wrong<'a>(alloc: Global, text: &str, rows: &'a str) -> Result<&'a str, Fail> {
    let stock = catalogue(alloc)?;
    for row in rows.split("\n\n") {
        if !is_told(alloc, &stock, text, row)? {
            return Ok(row);
        }
    }
    Ok("")
}

#[test]
fn each_value_has_its_type(rt: HostRuntime) -> Result<(), Fail> {
    let rows = "version = 1 => version = '1' => top 0 version kind

limit = 9 => limit = 9.0 => top 0 limit kind

limit = 9 => limit = 1979-05-27 => top 0 limit kind

plies = ['stiff', 'mat'] => plies = 'mat' => liner 0 plies kind

in_wall = true => in_wall = 1 => liner 0 in_wall kind

inner = ['mat', 'stiff'] => inner = ['mut', 1] => rules 0 inner kind

outer = ['stiff'] => outer = [['stiff']] => rules 0 outer kind

symmetric = true => symmetric = 'true' => rules 0 symmetric kind

balanced = false => balanced = 0 => rules 0 balanced kind

run = 3 => run = true => rules 0 run kind

stiff = 1 => stiff = [1] => counts 2 count kind

kind = 'resultants' => kind = 'forces' => case 1 kind kind

nx = -1 => nx = -inf => case 1 nx kind

mxy = 13 => mxy = {} => case 1 mxy kind

ends = 'open' => ends = true => case 2 ends kind

ends = 'open' => ends = 'Open' => case 2 ends kind

load = 50000 => load = 5e4 => panel 1 load kind";
    assert_eq!(rt; wrong(rt.alloc(), WHOLE, rows)?, "");
    Ok(())
}

#[test]
fn each_key_is_one_of_its_table(rt: HostRuntime) -> Result<(), Fail> {
    let rows = "version = 1 =>  => top 0 version missing

limit = 9 =>  => top 0 limit missing

limit = 9 => limit = 9
colour = 1 => top 0 - unknown

in_wall = true => inwall = true => liner 0 - unknown

plies = ['stiff', 'mat'] => plies = ['stiff', 'stuff'] => liner 0 plies item

outer = ['stiff'] => outer = ['stuff'] => rules 0 outer item

run = 3 => runs = 3 => rules 0 - unknown

stiff = 1 => stuff = 1 => counts 2 count item

stiff = 1 => stuff = 57 => counts 2 count range

kind = 'resultants' =>  => case 1 kind missing

kind = 'resultants' => kind = 'resultants'
colour = 1 => case 1 - unknown

nx = -1 => axial = -1 => case 1 - unknown

factor = 5000 =>  => case 1 factor missing

mx = 21 => nx = 21 => case 2 - unknown

pressure = 300 =>  => case 2 pressure missing

diameter = 2000 =>  => case 2 diameter missing

ends = 'open' =>  => case 2 ends missing

length = 500 =>  => panel 1 length missing

width = 400 => width = 400
depth = 1 => panel 1 - unknown";
    assert_eq!(rt; wrong(rt.alloc(), WHOLE, rows)?, "");
    Ok(())
}

// the first in the order of the tables and of their keys, whatever their order in the file
#[test]
fn the_first_of_two_faults_is_told(rt: HostRuntime) -> Result<(), Fail> {
    let rows = "version = 1 => colour = 1 => top 0 version missing

limit = 9
[liner] => liner = 1
limit = 57
[other] => top 0 limit range

limit = 9
[liner] => liner = 1
limit = 9
[other] => top 0 - unknown

plies = ['stiff', 'mat']
in_wall = true => colour = 1
in_wall = 1 => liner 0 in_wall kind

plies = ['stiff', 'mat'] => plies = [1, 1, 1, 1, 1, 1, 1, 1, 1] => liner 0 plies kind

plies = ['stiff', 'mat'] => plies = [ & 'a', * 9 & ] => liner 0 plies range

run = 3
fewest = 2 => fewest = 0
run = 0 => rules 0 run range

[rules.counts]
stiff = 1 => colour = 1
[rules.counts]
stiff = 0 => rules 0 - unknown

stiff = 1
mat = 6 => stiff = 0
mat = 0 => counts 1 count range

factor = 5000
[[case]] => [[case]]
[[case]] => case 1 factor missing

mx = 21 => nx = '1'
mx = 1.0 => case 2 mx kind

pressure = 300
diameter = 2000 => diameter = 0
pressure = -1 => case 2 pressure range

length = 500
width = 400 => width = 49
length = 49
depth = 1 => panel 1 length range";
    assert_eq!(rt; wrong(rt.alloc(), WHOLE, rows)?, "");
    Ok(())
}

#[test]
fn each_table_is_one(rt: HostRuntime) -> Result<(), Fail> {
    let rows = "4 => 4
liner = 1 => liner 0 - kind

4 => 4
rules = [] => rules 0 - kind

4 => 4
rules = { counts = 1, colour = 1 } => rules 0 - unknown

4 => 4
rules = { counts = 1 } => counts 0 - kind

[[case]]
kind = 'resultants'
factor = 5000 =>  => case 0 - missing

[[case]]
kind = 'resultants'
factor = 5000 => case = [] => case 0 - range

[[case]]
kind = 'resultants'
factor = 5000 => case = 1 => case 0 - kind

[[case]] => [case] => case 0 - kind

[[case]]
kind = 'resultants'
factor = 5000 => case = [{ kind = 'resultants' }, 1] => case 1 factor missing

[[case]]
kind = 'resultants'
factor = 5000 => case = [{ kind = 'resultants', factor = 1000 }, 1, {}] => case 2 - kind

4 => 4
panel = [] => fine

4 => 4
panel = {} => panel 0 - kind

4 => 4
panel = [1, 1, 1, 1, 1, 1, 1, 1] => panel 1 - kind

4 => 4
panel = [1, 1, 1, 1, 1, 1, 1, 1, 1] => panel 0 - range";
    assert_eq!(rt; wrong(rt.alloc(), LEAST, rows)?, "");
    Ok(())
}

#[test]
fn a_text_is_toml(rt: HostRuntime) -> Result<(), Fail> {
    let rows = "version => \u{feff}version => fine

4 => +4 # a comment => fine

4 =>  => top 0 - text

4 => 4
limit = 4 => top 0 - text

4 => 9223372036854775807 => top 0 limit range

4 => -9223372036854775808 => top 0 limit range

4 => 9223372036854775808 => top 0 - text";
    assert_eq!(rt; wrong(rt.alloc(), LEAST, rows)?, "");
    let stock = catalogue(rt.alloc())?;
    let no_text = told(rt.alloc(), &stock, b"version = 1 # \xff")?;
    assert_eq!(rt; no_text.as_str(), "top 0 - text");
    Ok(())
}

// the fault of a whole job in which the key of a line has another value
fn with_value(alloc: Global, stock: &Stock, line: &str, value: &str) -> Result<String, Fail> {
    let (key, _) = line.split_once(" = ").ok_or("no value")?;
    let new = format!(in alloc; "{key} = {value}")?;
    let job = changed(alloc, WHOLE, line, new.as_str())?;
    told(alloc, stock, job.as_bytes())
}

fn with_number(alloc: Global, stock: &Stock, line: &str, value: i64) -> Result<String, Fail> {
    with_value(alloc, stock, line, format!(in alloc; "{value}")?.as_str())
}

// the faults of the numbers just below, at and just above the bounds of a line, and that of a text
fn round_bounds(
    alloc: Global,
    stock: &Stock,
    line: &str,
    least: i64,
    greatest: i64,
) -> Result<String, Fail> {
    let below = with_number(alloc, stock, line, least.wrapping_sub(1))?;
    let least = with_number(alloc, stock, line, least)?;
    let above = with_number(alloc, stock, line, greatest.wrapping_add(1))?;
    let greatest = with_number(alloc, stock, line, greatest)?;
    let text = with_value(alloc, stock, line, "'1'")?;
    Ok(format!(in alloc; "{below}, {least}, {greatest}, {above}, {text}")?)
}

// a row: a line with a number, the least and the greatest that may stand there, its place
fn keeps_bounds(alloc: Global, stock: &Stock, row: &str) -> Result<bool, Fail> {
    let (line, rest) = row.split_once(" => ").ok_or("no least")?;
    let (least, rest) = rest.split_once(" => ").ok_or("no greatest")?;
    let (greatest, place) = rest.split_once(" => ").ok_or("no place")?;
    let told = round_bounds(alloc, stock, line, least.parse()?, greatest.parse()?)?;
    let due = format!(in alloc; "{place} range, fine, fine, {place} range, {place} kind")?;
    Ok(told.as_str() == due.as_str())
}

#[test]
fn each_number_keeps_its_bounds(rt: HostRuntime) -> Result<(), Fail> {
    let rows = "version = 1 => 1 => 1 => top 0 version
limit = 9 => 1 => 56 => top 0 limit
run = 3 => 1 => 56 => rules 0 run
fewest = 2 => 1 => 56 => rules 0 fewest
thickness = 15000 => 1 => 2000000 => rules 0 thickness
mat = 6 => 1 => 56 => counts 1 count
stiff = 1 => 1 => 56 => counts 2 count
nx = -1 => -1000000000 => 1000000000 => case 1 nx
ny = 90000 => -1000000000 => 1000000000 => case 1 ny
nxy = 7 => -1000000000 => 1000000000 => case 1 nxy
mx = 11 => -1000000000000 => 1000000000000 => case 1 mx
my = -12 => -1000000000000 => 1000000000000 => case 1 my
mxy = 13 => -1000000000000 => 1000000000000 => case 1 mxy
factor = 5000 => 1000 => 20000 => case 1 factor
mx = 21 => -1000000000000 => 1000000000000 => case 2 mx
my = 22 => -1000000000000 => 1000000000000 => case 2 my
pressure = 300 => 0 => 100000 => case 2 pressure
diameter = 2000 => 1 => 100000 => case 2 diameter
axial = -10000 => -1000000000 => 1000000000 => case 2 axial
factor = 10000 => 1000 => 20000 => case 2 factor
length = 500 => 50 => 20000 => panel 1 length
width = 400 => 50 => 20000 => panel 1 width
load = 50000 => 1 => 1000000000 => panel 1 load
factor = 2000 => 1000 => 20000 => panel 1 factor";
    let stock = catalogue(rt.alloc())?;
    for row in rows.split('\n') {
        assert!(rt; keeps_bounds(rt.alloc(), &stock, row)?, "{row}");
    }
    Ok(())
}

#[test]
fn lists_have_so_many_members(rt: HostRuntime) -> Result<(), Fail> {
    let rows = "4 => 4
 & [[case]]
kind = 'resultants'
factor = 1000
 * 15 => fine

4 => 4
 & [[case]]
kind = 'resultants'
factor = 1000
 * 16 => case 0 - range

4 => 4
 & [[panel]]
length = 50
width = 50
load = 1
factor = 1000
 * 8 => fine

4 => 4
 & [[panel]]
length = 50
width = 50
load = 1
factor = 1000
 * 9 => panel 0 - range

4 => 4
liner.plies = [] => fine

4 => 4
liner.plies = [ & 'mat', * 8 & ] => fine

4 => 4
liner.plies = [ & 'mat', * 9 & ] => liner 0 plies range

4 => 4
rules.inner = [] => rules 0 inner range

4 => 4
rules.inner = [ & 'mat', * 64 & ] => fine

4 => 4
rules.outer = [ & 'mat', * 65 & ] => rules 0 outer range";
    assert_eq!(rt; wrong(rt.alloc(), LEAST, rows)?, "");
    Ok(())
}

// brackets, and a comment that makes 1,048,576 bytes in all
#[test]
fn texts_are_deep_and_long(rt: HostRuntime) -> Result<(), Fail> {
    let rows = "4 => [ * 79 & ] * 79 => top 0 limit kind

4 => [ * 80 & ] * 80 => top 0 limit kind

4 => [ * 81 & ] * 81 => top 0 - text

4 => [ * 82 & ] * 82 => top 0 - text

4 => 4 & # * 1048511 => fine";
    assert_eq!(rt; wrong(rt.alloc(), LEAST, rows)?, "");
    Ok(())
}
