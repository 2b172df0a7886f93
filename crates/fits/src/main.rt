// fits TABLE: `yes` where no server of the table misses in any mode, else `no` with the mode and the
// row of the least miss; a refused table as its one line. The answer's line is made by `line_of`,
// which neither reads nor writes (specs/Line.antt).

#![tactic(auto)]

ghost use Rattle.std.specs.Prelude.{◌≡◌, ◌≤◌, length, take};
ghost use Rattle.decimal.specs.Room.{Put};
ghost use Rattle.verdict.specs.declared.Fits.TheVariants.{Miss, No};
ghost use Rattle.verdict.specs.Fits.{fits_of};
ghost use Rattle.lines.specs.Words.{mode_word};
ghost use Rattle.fits.specs.Line.{fits_line};

use decimal::put::{put_all, put_byte, put_number};
use files::given::say_refused;
use std::process::ExitCode;
use std::rt::Runtime;
use table::{Mode, Refusal, Table};
use verdict::Fits;

// No line is longer: a word, a mode and a row of two bytes each, with what parts and closes them.
const ROOM: usize = 9;

// Kept: put_mode to put_answer take (room, at), as decimal's functions; no heap for a String.
// Kept: crate printer's store_mode stores the tab before the word with it, in one, and is its own.
fn put_mode(m: Mode, room: &mut [u8], at: usize) -> usize
    ensures { Put (mode_word m) room.old at room.new result }
{
    match m {
        Mode::N => put_all(b"N", room, at),
        Mode::D1 => put_all(b"D1", room, at),
        Mode::D2 => put_all(b"D2", room, at),
    }
}

fn put_miss(m: Mode, row: usize, room: &mut [u8], at: usize) -> usize
    ensures { Put (fits_line (Miss m row)) room.old at room.new result }
{
    let k = put_all(b"no\t", room, at);
    let k = put_mode(m, room, k);
    let k = put_byte(b'\t', room, k);
    let k = put_number(row as u64, room, k);
    put_byte(b'\n', room, k)
}

fn put_no(why: Refusal, room: &mut [u8], at: usize) -> usize
    ensures { Put (fits_line (No why)) room.old at room.new result }
{
    let k = put_all(b"no\t", room, at);
    let k = put_number(table::number_of(why), room, k);
    put_byte(b'\n', room, k)
}

fn put_answer(f: Fits, room: &mut [u8], at: usize) -> usize
    ensures { Put (fits_line f) room.old at room.new result }
{
    match f {
        Fits::Yes => put_all(b"yes\n", room, at),
        Fits::Miss { mode, row } => put_miss(mode, row, room, at),
        Fits::No(why) => put_no(why, room, at),
    }
}

// The answer's line at the front of the room: how many bytes it has.
fn line_of(t: Table, room: &mut [u8]) -> usize
    requires { 9 ≤ length room.old }
    ensures { take result room.new ≡ fits_line (fits_of t) }
{
    put_answer(verdict::fits_of(t), room, 0)
}

// Whether everything was answered; where not, why was said.
// Kept: one function for all programs would be public, and what it answers is the system's.
fn is_answered<R: Runtime>(rt: &R) -> bool {
    let help = b"fits TABLE\n\
        Prints `yes` where no server of the table in the file TABLE misses in any mode,\n\
        else `no` with the mode and the row of the least miss: the least mode in the\n\
        order N, D1, D2, then the least row.\n\
        A table that is refused prints one line: table, no, number, line, field\n\
        (0 is the line itself; for 5 both lines and no field).\n\
        `-` stands for standard input. README.md has the form and the numbers.\n";
    if files::asked_for_help(rt) {
        return files::write_out(rt, help);
    }
    if !files::called_with(rt, 2, b"fits TABLE") {
        return false;
    }
    let Some(mut source) = files::open_argument(rt, 1) else {
        return false;
    };
    let Some(read) = files::given::take_table(rt, &mut source) else {
        return false;
    };
    let t: Table = match say_refused(rt, read) {
        Ok(table) => table,
        Err(written) => return written,
    };
    let mut room = [0u8; ROOM];
    let n = line_of(t, &mut room);
    files::write_first(rt, &room, n)
}

fn main(rt: HostRuntime) -> ExitCode {
    files::exit_code(is_answered(&rt))
}
