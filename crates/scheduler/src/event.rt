// An event on a state that is sound. Whether it is, is decided at the door; each of these keeps it
// so.

// Kept: sheets is read, state and found are written: three loans, which a struct would only wrap.
// Kept: framescheduler has these of its own table and state; only the tests are alike.

ghost use Rattle.std.specs.Prelude.{◌≡◌, not, ◌&&◌, ◌||◌, ◌≤◌};
ghost use Rattle.table.specs.Rows.{is_low, is_d2};
ghost use Rattle.scheduler.specs.Inner.Steps.{none_found};
ghost use Rattle.scheduler.specs.Inner.Events.{Releases, SomeRun, Takes};

use crate::sheets::Sheets;
use crate::{advance, choose, settle};
use events::{Answer, Event, TickAnswer};
use queues::{MOST, QUEUE};
use run::{FOUND_VALUES, State};
use table::{Level, Mode, Refusal};

fn low_in_d2(m: Mode, l: Level) -> bool
    ensures { result ≡ (is_d2 m && is_low l) }
{
    table::is_d2(m) && table::is_low(l)
}

// A release: "A release adds one job at the back of its task's queue." Refused: 6, 7, 8, 10.
fn release_in(sheets: &Sheets, state: &mut State, task: usize) -> Answer
    requires { sheets.now.ntasks ≤ 64 }
    ensures { Releases sheets.now state.old task state.new result }
{
    if sheets.ntasks <= task {
        return Answer::No(Refusal::NoTask);
    }
    if low_in_d2(state.mode, sheets.level(task)) {
        return Answer::No(Refusal::LowInD2);
    }
    if QUEUE <= state.waiting[task] {
        return Answer::No(Refusal::QueueFull);
    }
    if MOST <= state.accepted {
        return Answer::No(Refusal::CountSpent);
    }
    queues::join(task, &mut state.waiting);
    state.accepted += 1;
    Answer::Released(task)
}

// Whether a mark may come: 9 is for mark 1 where the last taken tick ran no job.
fn mark_may_come(ran: bool, mark: bool) -> bool
    ensures { result ≡ (not mark || ran) }
{
    !mark || ran
}

// One tick, steps 1 to 7, and what steps 5 and 2 find. Refused: 9, 10.
fn tick_in(sheets: &Sheets, state: &mut State, found: &mut [u8; FOUND_VALUES], mark: bool) -> Answer
    requires { SomeRun sheets.now state.old × (found.old ≡ none_found) }
    ensures { Takes sheets.now (Event.Tick mark) state.old state.new found.new result }
{
    if !mark_may_come(queues::ran_job(state.last), mark) {
        return Answer::No(Refusal::NoJobRan);
    }
    let tick = state.ticks;
    if MOST <= tick.0 {
        return Answer::No(Refusal::CountSpent);
    }
    let settled = settle::settle(sheets, state, found, mark);
    let mode = state.mode;
    let turn = choose::choose_turn(sheets, state, found);
    advance::advance(sheets, state, turn);
    Answer::Ticked(TickAnswer {
        tick,
        mode,
        turn,
        left: settled.left,
        discarded: settled.discarded,
    })
}

// An event, taken or refused, and what is found at it.
pub(crate) fn event_in(
    sheets: &Sheets,
    state: &mut State,
    found: &mut [u8; FOUND_VALUES],
    e: Event,
) -> Answer
    requires { SomeRun sheets.now state.old × (found.old ≡ none_found) }
    ensures { Takes sheets.now e state.old state.new found.new result }
{
    match e {
        Event::Release(task) => release_in(sheets, state, task),
        Event::Tick(mark) => tick_in(sheets, state, found, mark),
    }
}
