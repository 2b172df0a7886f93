// frame TABLE EVENTS: the answers of a frame box to an event file, from a fresh start with a table.
// (02, No. 6; 01, One night in full.) How the file is gone through, and every byte of an answer made,
// is said and done for any box (crate files, night.rt).

#![tactic(auto)]

ghost use Rattle.framerun.specs.Events.{frame_box};

use files::given::say_refused;
use files::night::{NightBox, answer_all};
use framerun::FrameRun;
use frametable::FrameTable;
use lines::{Held, Served};
use std::process::ExitCode;
use std::rt::Runtime;

// The box of this program: how a buffer of the event file is served, and by what.
struct TheBox;

impl NightBox for TheBox {
    type Run = FrameRun;

    ghost the_box = { frame_box };

    fn serve(r: FrameRun, h: Held, input: &[u8], room: &mut [u8]) -> Served<FrameRun> {
        // Kept: named, since the proof speaks of it by this name, whatever is then handed on.
        let served = frameserving::serve(r, h, input, room);
        served
    }
}

type Night = files::night::Night<TheBox>;

// Whether everything was answered; where not, why was said.
// Kept: one function for all programs would be public, and what it answers is the system's.
fn is_answered<R: Runtime>(rt: &R) -> bool {
    let help = b"frame TABLE EVENTS\n\
        Prints the answer of a frame box to each line of the file EVENTS, from a fresh\n\
        start with the table in TABLE.\n\
        A table that is refused prints one line: table, no, number, line, field\n\
        (0 is the line itself; for 5 both lines and no field).\n\
        `-` stands for standard input. README.md has the forms and the numbers.\n";
    if files::asked_for_help(rt) {
        return files::write_out(rt, help);
    }
    if !files::called_with(rt, 3, b"frame TABLE EVENTS") {
        return false;
    }
    let Some(mut table) = files::open_argument(rt, 1) else {
        return false;
    };
    let Some(mut events) = files::open_argument(rt, 2) else {
        return false;
    };
    if table.is_input() && events.is_input() {
        let _ = eprintln!(rt; "frame: standard input is given twice");
        return false;
    }
    let Some(read) = files::given::take_table(rt, &mut table) else {
        return false;
    };
    let t: FrameTable = match say_refused(rt, read) {
        Ok(table) => table,
        Err(written) => return written,
    };
    let started = framescheduler::start(t);
    let run = started.run;
    let held = cutter::no_line();
    let night = Night {
        run,
        held,
        put: 0,
        going: true,
    };
    answer_all(rt, night, &mut events)
}

fn main(rt: HostRuntime) -> ExitCode {
    files::exit_code(is_answered(&rt))
}
