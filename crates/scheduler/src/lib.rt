// The run: start afresh, release, tick; many event lines in many.rt. (01, What one tick does.) Any
// table, any state, any task number may be handed in; what is refused takes no tick and comes back
// as it was. Soundness (13) is decided here, once; behind this door stand the steps on a sound
// state, which are lent the state and the table's sheets.

#![tactic(auto)]

mod advance;
mod choose;
mod event;
pub mod many;
mod settle;
mod sheets;

ghost use Rattle.std.specs.Prelude.{◌≡◌, if◌then◌else◌};
ghost use Rattle.run.specs.State.{fresh};
ghost use Rattle.run.specs.Release.{start_of, release_of};
ghost use Rattle.run.specs.Tick.{tick_of};
ghost use Rattle.run.specs.Events.{event_of};
ghost use Rattle.scheduler.specs.Inner.Events.{Opens};

use crate::sheets::Sheets;
use events::{Answer, Answered, Begun, Event};
use run::{FOUND_VALUES, Run, State};
use table::{Mode, Refusal, SERVERS, TASKS, Table};
use units::Ticks;

// A count where something is so, and else 0.
fn count_if(so: bool, x: u32) -> u32
    ensures { result ≡ (if so then x else 0) }
{
    if so { x } else { 0 }
}

// "A fresh run is in N, all counts 0."
// Kept: zeros are written out: a Mode, which the state holds, has no default.
fn fresh_state() -> State
    ensures { result ≡ fresh }
{
    State {
        mode: Mode::N,
        used: [0u32; SERVERS],
        elapsed: [0u32; SERVERS],
        waiting: [0u8; TASKS],
        runs: [0u32; TASKS],
        last: None,
        ticks: Ticks(0),
        accepted: 0,
    }
}

// Kept: start to tick are in each box, over its table and state; one for both would be longer.

// Start afresh with a table. Refused: 13.
pub fn start(t: Table) -> Begun<Run>
    ensures { result ≡ start_of t }
{
    let answer = if table::table_keeps(t) {
        Ok(())
    } else {
        Err(Refusal::Unsound)
    };
    let run = Run {
        table: t,
        state: fresh_state(),
    };
    Begun { answer, run }
}

// The door: the sheets of a run that is sound. Refused: 13.
fn open(r: Run) -> Result<Sheets, Refusal>
    ensures { Opens r result }
{
    if soundness::run_sound(r.table, r.state) {
        return Ok(Sheets::of(&r.table));
    }
    Err(Refusal::Unsound)
}

// An event, on a run that is handed in. Refused: 13 first.
fn answer_event(r: Run, e: Event) -> Answered<Run>
    ensures { result ≡ event_of r e }
{
    let mut run = r;
    let answer = match open(r) {
        Ok(sheets) => event::event_in(&sheets, &mut run.state, &mut [0u8; FOUND_VALUES], e),
        Err(why) => Answer::No(why),
    };
    Answered { answer, run }
}

// A release of a task. Refused: 13, then 6, 7, 8, 10.
pub fn release(r: Run, task: usize) -> Answered<Run>
    ensures { result ≡ release_of r task }
{
    answer_event(r, Event::Release(task))
}

// One tick, with its end mark. Refused: 13, then 9, 10.
pub fn tick(r: Run, mark: bool) -> Answered<Run>
    ensures { result ≡ tick_of r mark }
{
    answer_event(r, Event::Tick(mark))
}
