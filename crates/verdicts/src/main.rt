// verdicts TABLE: for each server row its number and its response in N, D1 and D2, `misses` where
// there is none; a refused table as its one line. The page is made by `put_page`, which neither
// reads nor writes (specs/Page.antt).

#![tactic(auto)]

ghost use Rattle.std.specs.Prelude.{◌≡◌, true, [], ◌∷◌, ◌++◌};
ghost use Rattle.decimal.specs.Lines.{tab, closed};
ghost use Rattle.decimal.specs.Room.{Put};
ghost use Rattle.table.specs.Rules.{table_keeps};
ghost use Rattle.verdicts.specs.Page.{verdict_word, row_line, page};

use decimal::put::{put_all, put_byte, put_number};
use files::given::say_refused;
use std::process::ExitCode;
use std::rt::Runtime;
use table::{ByMode, Table};
use verdict::Verdict;

// A row has at most a number of 2 digits and three verdicts of 10 bytes, with what parts and closes
// them.
const ROOM: usize = table::SERVERS * 64;

// Kept: put_verdict to put_row take (room, at), as decimal's functions; no heap for a String.
fn put_verdict(v: Verdict, room: &mut [u8], at: usize) -> usize
    ensures { Put (verdict_word v) room.old at room.new result }
{
    match v {
        Verdict::Response(r) => put_number(r.0 as u64, room, at),
        Verdict::Misses => put_all(b"misses", room, at),
        Verdict::No(_) => put_all(b"no", room, at),
    }
}

// A verdict, and the tab after it.
fn put_field(v: Verdict, room: &mut [u8], at: usize) -> usize
    ensures { Put (verdict_word v ++ (tab ∷ [])) room.old at room.new result }
{
    let k = put_verdict(v, room, at);
    put_byte(b'\t', room, k)
}

fn put_row(row: usize, v: ByMode<Verdict>, room: &mut [u8], at: usize) -> usize
    ensures { Put (closed (row_line row v ∷ [])) room.old at room.new result }
{
    let k = put_number(row as u64, room, at);
    let k = put_byte(b'\t', room, k);
    let k = put_field(v.n, room, k);
    let k = put_field(v.d1, room, k);
    let k = put_verdict(v.d2, room, k);
    put_byte(b'\n', room, k)
}

// Kept: a Table may be any that is handed in: that it keeps the rules is no fact of its type.
fn put_page(t: Table, room: &mut [u8]) -> usize
    requires { table_keeps t ≡ true }
    ensures { Put (page t) room.old 0 room.new result }
{
    let all = verdict::verdicts_of(t);
    let mut k = 0;
    for (row, v) in all[..t.nservers].iter().enumerate() {
        k = put_row(row, *v, room, k);
    }
    k
}

// Whether everything was answered; where not, why was said.
// Kept: one function for all programs would be public, and what it answers is the system's.
fn is_answered<R: Runtime>(rt: &R) -> bool {
    let help = b"verdicts TABLE\n\
        Prints for each server row of the table in the file TABLE its number and its\n\
        response in N, D1 and D2, in ticks, `misses` where there is none.\n\
        A table that is refused prints one line: table, no, number, line, field\n\
        (0 is the line itself; for 5 both lines and no field).\n\
        `-` stands for standard input. README.md has the form and the numbers.\n";
    if files::asked_for_help(rt) {
        return files::write_out(rt, help);
    }
    if !files::called_with(rt, 2, b"verdicts TABLE") {
        return false;
    }
    let Some(mut source) = files::open_argument(rt, 1) else {
        return false;
    };
    let Some(read) = files::given::take_table(rt, &mut source) else {
        return false;
    };
    let t: Table = match say_refused(rt, read) {
        Ok(table) => table,
        Err(written) => return written,
    };
    let mut room = [0u8; ROOM];
    let n = put_page(t, &mut room);
    files::write_first(rt, &room, n)
}

fn main(rt: HostRuntime) -> ExitCode {
    files::exit_code(is_answered(&rt))
}
