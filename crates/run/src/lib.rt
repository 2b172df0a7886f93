// The run: a table with its state, and what is answered to a start and to events. (01, What one tick
// does.)

#![tactic(auto)]

use table::{Mode, Refusal, SERVERS, TASKS, Table};
use units::Ticks;

// The counts of a run, row by row. A task's queue is the number of its waiting jobs and the run
// count of the front one. (Crate queues.)
// Kept: document 01 names this form, a struct with arrays of used, elapsed, waiting and run counts.
#[derive(Clone, Copy)]
pub struct State {
    pub mode: Mode,
    pub used: [u32; SERVERS],
    pub elapsed: [u32; SERVERS],
    pub waiting: [u8; TASKS],
    pub runs: [u32; TASKS],
    pub last: Option<usize>,
    pub ticks: Ticks,
    pub accepted: u32,
}

// A state with its table.
// Kept: each box has its own run, by whose name the promises speak of it.
#[derive(Clone, Copy)]
pub struct Run {
    pub table: Table,
    pub state: State,
}

// The mode after a job was judged, and whether it was cut.
// Kept: mode and cut both always count: a job may raise the mode and then be cut in the new one.
#[derive(Clone, Copy)]
pub struct Judged {
    pub mode: Mode,
    pub cut: bool,
}

// What steps 5 and 2 find at a taken tick, as plain numbers: one for each server and one for each
// task. (specs/Found.antt.)
// Kept: numbers one after the other, since so many are lent at once (docs/DECISIONS.md, Ours).
pub const FOUND_VALUES: usize = SERVERS + TASKS;

// What is handed back for many event lines of which what is found is asked too: that they were taken,
// or why none of them was, the run after them, and how many ticks were taken among the lines.
// Kept: ticks stands beside the answer: find_of says the count of a refusal too.
#[derive(Clone, Copy)]
pub struct Finding {
    pub answer: Result<(), Refusal>,
    pub run: Run,
    pub ticks: usize,
}
