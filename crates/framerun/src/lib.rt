// The run of a frame box: a table with its state, and what is answered to a start and to events. (02,
// No. 6: "Tasks, releases, end marks and queues stay as in 01, in mode N only".)

#![tactic(auto)]

use frametable::FrameTable;
use table::TASKS;
use units::Ticks;

// The counts of a run: the tasks' queues (crate queues), the last-run job, and how many ticks were
// taken and releases accepted. There is no mode, and no server's budget.
// Kept: arrays, as document 01 has the state of a run.
#[derive(Clone, Copy)]
pub struct FrameState {
    pub waiting: [u8; TASKS],
    pub runs: [u32; TASKS],
    pub last: Option<usize>,
    pub ticks: Ticks,
    pub accepted: u32,
}

// A state with its table.
// Kept: each box has its own run, by whose name the promises speak of it.
#[derive(Clone, Copy)]
pub struct FrameRun {
    pub table: FrameTable,
    pub state: FrameState,
}
