// report TABLE EVENTS: the morning report, one page for a night's event file. (02, No. 1.) The file
// is read in pieces; the line that is not closed yet is held, so the cutting into reads does not
// show. Every number is counted by `count_piece`, and every byte of the page made by `put_report`,
// which neither read nor write (specs/Pieces.antt).

#![tactic(auto)]

mod count;
mod page;

ghost use Rattle.std.specs.Prelude.{◌≡◌, ◌≤◌, length, take, MatchOption, ⊤};
ghost use Rattle.report.specs.Inner.Page.{longest_page};
ghost use Rattle.report.specs.Pieces.{standing, AfterSome, Reads, ReadsSome, piece_of, goes_on, whole, PageOf};

use count::{Counts, no_counts};
use events::{LINE_VALUES, TOLD_VALUES};
use files::How;
use files::given::say_refused;
use lines::{BATCH, Held};
use page::ROOM;
use run::{FOUND_VALUES, Run};
use std::io::Read;
use std::process::ExitCode;
use std::rt::Runtime;
use table::Table;

// The event file is read in pieces of so many bytes.
const PIECE: usize = 16384;

// A file so far: the run, and the line that is held.
// Kept: counts is lent, and no field of Morning: it is large, and would be copied for each turn.
#[derive(Clone, Copy)]
struct Morning {
    run: Run,
    held: Held,
}

// All of a piece: a batch of lines at a time is cut, sent to the run and counted.
// Kept: three rooms of a batch (no heap), and a place in the piece that moves by what was eaten.
fn count_piece(n: Morning, bytes: &[u8], counts: &mut Counts) -> Morning
    requires { AfterSome (standing n counts.old) }
    ensures { Reads bytes.now (standing n counts.old) (standing result counts.new) }
{
    let Morning { mut run, mut held } = n;
    let mut at = 0;
    let mut values = [0u64; LINE_VALUES * BATCH];
    let mut told = [0u64; TOLD_VALUES * BATCH];
    let mut found = [0u8; FOUND_VALUES * BATCH];
    let nservers = run.table.nservers;
    let ntasks = run.table.ntasks;
    while at < bytes.len() {
        let c = cutter::cut_lines(held, &bytes[at..], &mut values);
        let said = &values[..LINE_VALUES * c.many];
        let m = scheduler::many::find_many(run, said, &mut told, &mut found);
        count::count_ticks(nservers, ntasks, m.ticks, &told, &mut found, counts);
        run = m.run;
        held = c.held;
        at += c.eaten;
    }
    Morning { run, held }
}

// One turn: what was read is counted. At the end of the file, and where it could not be read, there
// is nothing to count.
// Kept: next and count_all are not the night's: they count into what is lent, and write nothing.
fn next(m: Morning, how: How, bytes: &[u8], counts: &mut Counts) -> Morning
    requires { AfterSome (standing m counts.old) }
    ensures { Reads (piece_of how bytes.now) (standing m counts.old) (standing result counts.new) }
{
    if goes_on(how) {
        count_piece(m, bytes, counts)
    } else {
        m
    }
}

// Whether the file goes on after a read that ended so.
fn goes_on(how: How) -> bool
    ensures { result ≡ goes_on how }
{
    how == How::On
}

// What was counted of a file that ended so: all of it, or nothing where it was not read to its end.
fn whole(how: How, m: Morning) -> Option<Morning>
    ensures { result ≡ whole how m }
{
    if how == How::End { Some(m) } else { None }
}

// The whole file, or none where it could not be read to its end. Nothing else reads it.
fn count_all<R: Eprint, S: Read>(
    rt: &R,
    n: Morning,
    events: &mut S,
    counts: &mut Counts,
) -> Option<Morning>
    requires { AfterSome (standing n counts.old) }
    ensures { MatchOption result ⊤ (λ m. ReadsSome (standing n counts.old)
        (standing m counts.new)) }
{
    let mut m = n;
    let mut piece = [0u8; PIECE];
    for _ in 0..files::TURNS {
        let got = files::take_piece(rt, events, &mut piece);
        m = next(m, got.how, &piece[..got.len], counts);
        if !goes_on(got.how) {
            return whole(got.how, m);
        }
    }
    None
}

// The page of what was read.
fn put_report(n: Morning, counts: &Counts, room: &mut [u8]) -> usize
    requires after_some { AfterSome (standing n counts.now) }
    requires longest_page_in_bounds { longest_page ≤ length room.old }
    ensures { PageOf (standing n counts.now) (take result room.new) }
{
    let t = &n.run.table;
    page::put_page(t.nservers, t.ntasks, counts, &n.run.state.waiting, room)
}

// Whether everything was answered; where not, why was said.
// Kept: one function for all programs would be public, and what it answers is the system's.
fn is_answered<R: Runtime>(rt: &R) -> bool {
    let help = b"report TABLE EVENTS\n\
        Prints the morning report of the event file EVENTS, from a fresh start with the\n\
        table in TABLE. For each server: row, ticks charged, empty turns, and the longest\n\
        row of ticks in which it had a waiting job and was not charged. For each task:\n\
        row, jobs finished, cut, discarded and still waiting. For each mode: its ticks.\n\
        A table that is refused prints one line: table, no, number, line, field\n\
        (0 is the line itself; for 5 both lines and no field).\n\
        `-` stands for standard input. README.md has the forms and the numbers.\n";
    if files::asked_for_help(rt) {
        return files::write_out(rt, help);
    }
    if !files::called_with(rt, 3, b"report TABLE EVENTS") {
        return false;
    }
    let Some(mut table) = files::open_argument(rt, 1) else {
        return false;
    };
    let Some(mut events) = files::open_argument(rt, 2) else {
        return false;
    };
    if table.is_input() && events.is_input() {
        let _ = eprintln!(rt; "report: standard input is given twice");
        return false;
    }
    let Some(read) = files::given::take_table(rt, &mut table) else {
        return false;
    };
    let t: Table = match say_refused(rt, read) {
        Ok(table) => table,
        Err(written) => return written,
    };
    let started = scheduler::start(t);
    let run = started.run;
    let held = cutter::no_line();
    let mut counts = no_counts();
    let morning = Morning { run, held };
    let Some(read) = count_all(rt, morning, &mut events, &mut counts) else {
        return false;
    };
    let mut room = [0u8; ROOM];
    let n = put_report(read, &counts, &mut room);
    files::write_first(rt, &room, n)
}

fn main(rt: HostRuntime) -> ExitCode {
    files::exit_code(is_answered(&rt))
}
