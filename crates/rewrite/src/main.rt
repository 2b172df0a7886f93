// rewrite TABLE: the table as the writer writes it; a refused table as its one line.

#![tactic(auto)]

ghost use Rattle.std.specs.Prelude.{◌≡◌, ◌≤◌, length, take};
ghost use Rattle.rewrite.specs.Rewritten.{rewritten};

use files::given::say_refused;
use std::process::ExitCode;
use std::rt::Runtime;
use table::Table;
use text::LONGEST_TEXT;

// The text of a table at the front of the room: how many bytes it has.
fn text_of(t: Table, room: &mut [u8]) -> usize
    requires { 16384 ≤ length room.old }
    ensures { take result room.new ≡ rewritten t }
{
    writer::write_table(t, room).unwrap_or(0)
}

// Whether everything was answered; where not, why was said.
// Kept: one function for all programs would be public, and what it answers is the system's.
fn is_answered<R: Runtime>(rt: &R) -> bool {
    let help = b"rewrite TABLE\n\
        Prints the table in the file TABLE as it is held, written back.\n\
        A table that is refused prints one line: table, no, number, line, field\n\
        (0 is the line itself; for 5 both lines and no field).\n\
        `-` stands for standard input. README.md has the form and the numbers.\n";
    if files::asked_for_help(rt) {
        return files::write_out(rt, help);
    }
    if !files::called_with(rt, 2, b"rewrite TABLE") {
        return false;
    }
    let Some(mut source) = files::open_argument(rt, 1) else {
        return false;
    };
    let Some(read) = files::given::take_table(rt, &mut source) else {
        return false;
    };
    let t: Table = match say_refused(rt, read) {
        Ok(table) => table,
        Err(written) => return written,
    };
    let mut room = [0u8; LONGEST_TEXT];
    let n = text_of(t, &mut room);
    files::write_first(rt, &room, n)
}

fn main(rt: HostRuntime) -> ExitCode {
    files::exit_code(is_answered(&rt))
}
