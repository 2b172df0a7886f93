// The run of a frame box: start afresh, release, tick, many event lines. (02, No. 6.) Any table,
// any state, any task number may be handed in; what is refused takes no tick and comes back as it
// was. Soundness (13) is decided here, once; behind this door stand the steps on a sound run
// (steps.rt).
// Kept: the doors are a few lines each over another run than crate scheduler's, which has sheets.

#![tactic(auto)]

mod sound;
mod steps;

ghost use Rattle.std.specs.Prelude.{◌≡◌};
ghost use Rattle.framerun.specs.State.{fresh};
ghost use Rattle.framerun.specs.Release.{start_of, release_of};
ghost use Rattle.framerun.specs.Tick.{tick_of};
ghost use Rattle.framerun.specs.Events.{event_of};
ghost use Rattle.framerun.specs.Many.{frame_many_of};

use events::{Answer, Answered, Begun, Event, LINE_VALUES, Many, TOLD_VALUES};
use framerun::{FrameRun, FrameState};
use frametable::FrameTable;
use table::{Refusal, TASKS};
use units::Ticks;

// "A fresh run is in N, all counts 0."
// Kept: zeros are written out, as `fresh` has them.
fn fresh_state() -> FrameState
    ensures { result ≡ fresh }
{
    FrameState {
        waiting: [0u8; TASKS],
        runs: [0u32; TASKS],
        last: None,
        ticks: Ticks(0),
        accepted: 0,
    }
}

// Start afresh with a table. Refused: 13.
pub fn start(t: FrameTable) -> Begun<FrameRun>
    ensures { result ≡ start_of t }
{
    let run = FrameRun {
        table: t,
        state: fresh_state(),
    };
    if frametable::frame_table_keeps(t) {
        return Begun {
            answer: Ok(()),
            run,
        };
    }
    Begun {
        answer: Err(Refusal::Unsound),
        run,
    }
}

// An event, on a run that is handed in. Refused: 13 first.
fn answer_event(r: FrameRun, e: Event) -> Answered<FrameRun>
    ensures { result ≡ event_of r e }
{
    if !sound::run_sound(&r) {
        return Answered {
            answer: Answer::No(Refusal::Unsound),
            run: r,
        };
    }
    let mut run = r;
    let answer = steps::event_in(&mut run, &slots::the_frame(), e);
    Answered { answer, run }
}

// A release of a task. Refused: 13, then 6, 8, 10.
pub fn release(r: FrameRun, task: usize) -> Answered<FrameRun>
    ensures { result ≡ release_of r task }
{
    answer_event(r, Event::Release(task))
}

// One tick, with its end mark. Refused: 13, then 9, 10.
pub fn tick(r: FrameRun, mark: bool) -> Answered<FrameRun>
    ensures { result ≡ tick_of r mark }
{
    answer_event(r, Event::Tick(mark))
}

// What is told to many event lines stands at the front of the lent room, nine numbers a line.
// Refused: 13, then 12.
pub fn answer_many(r: FrameRun, lines: &[u64], told: &mut [u64]) -> Many<FrameRun>
    ensures { record { many = result; room = told.new } ≡ frame_many_of r lines.now told.old }
{
    if !sound::run_sound(&r) {
        return Many {
            answer: Err(Refusal::Unsound),
            run: r,
        };
    }
    if told.len() / TOLD_VALUES < lines.len() / LINE_VALUES {
        return Many {
            answer: Err(Refusal::RoomShort),
            run: r,
        };
    }
    let mut run = r;
    steps::answer_lines(&mut run, &slots::the_frame(), lines, told);
    Many {
        answer: Ok(()),
        run,
    }
}
