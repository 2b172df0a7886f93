// The table of a frame box: of each task its partition, its priority and its one limit. (02, No.
// 6.) Which slots a partition has is in crate slots; there is no server and no mode here.

#![tactic(auto)]

ghost use Rattle.std.specs.Prelude.{◌≡◌, ℕ, take};
ghost use Rattle.laws.specs.Choice.{every};
ghost use Rattle.frametable.specs.Rows.{no_frame_table};
ghost use Rattle.frametable.specs.Rules.{frame_task_keeps, equal_frame_tasks, frame_table_keeps};
ghost use Rattle.frametable.specs.Inner.{frame_tasks_keep};

use table::{HasPriority, TASKS};
use text::Word;
use units::{Micros, Ticks};

// A task's row: "partition (0 measuring, 1 alarm sending, 2 panel), priority and one limit".
#[derive(Clone, Copy)]
pub struct FrameTask {
    pub partition: u8,
    pub priority: u8,
    pub limit: Ticks,
}

// The rows in use are the first ntasks.
// Kept: a board has no heap, so rows are an array of fixed length with their count beside it.
#[derive(Clone, Copy)]
pub struct FrameTable {
    pub tick: Micros,
    pub ntasks: usize,
    pub tasks: [FrameTask; TASKS],
}

// What a task's line says, in microseconds: "partition .., priority and one limit".
#[derive(Clone, Copy)]
pub struct FrameTaskLine {
    pub partition: u64,
    pub priority: u64,
    pub limit: Micros,
}

// What a line says, nothing of it judged but its form: a malformed one has its leading word and the
// first field that is wrong, from 1, or 0 for a word that no line here has or a wrong count of
// fields.
// Kept: as text::Line: a malformed line is judged by its place first; the lines here are others.
#[derive(Clone, Copy)]
pub enum FrameLine {
    OfTick(Micros),
    OfTask(FrameTaskLine),
    Malformed(Word, usize),
}

// The table that reading begins with: no tick and no rows.
// Kept: zeros are written out: Ticks and Micros have no default.
#[tactic(auto, unfolding(crate::specs::Rows::frame_table_of))]
pub fn no_frame_table() -> FrameTable
    ensures { result ≡ no_frame_table }
{
    let k = FrameTask {
        partition: 0,
        priority: 0,
        limit: Ticks(0),
    };
    FrameTable {
        tick: Micros(0),
        ntasks: 0,
        tasks: [k; TASKS],
    }
}

impl HasPriority for FrameTask {
    ghost priority_of = { λ k. k.priority };

    fn priority(&self) -> u8 {
        self.priority
    }
}

// The first pair of tasks with equal priority, among the first count: a count handed in may be past
// the end.
// Kept: equal_frame_tasks is public and takes an array and a count.
pub fn equal_frame_tasks(ks: [FrameTask; TASKS], count: usize) -> Option<(usize, usize)>
    ensures { result ≡ equal_frame_tasks (take count ks) }
{
    table::equal_rows(&ks[..count.min(TASKS)])
}

// The rules of a task's row, a test for each of the rule, in its order.
#[tactic(auto, unfolding(crate::specs::Rules::frame_task_keeps))]
fn frame_task_keeps(k: FrameTask) -> bool
    ensures { result ≡ every (frame_task_keeps k) }
{
    laws::all_of(&[
        laws::is_within(0, 2, k.partition as u64),
        laws::is_within(1, 255, k.priority as u64),
        laws::is_within(1, 100000, k.limit.0 as u64),
    ])
}

fn frame_tasks_keep(ks: &[FrameTask]) -> bool
    ensures { result ≡ frame_tasks_keep ks.now }
{
    ks.iter().all(|k| frame_task_keeps(*k))
}

// Whether a frame box's table keeps the rules. The count comes first: no row past the array is then
// asked for, and rows past the count hold nothing that is asked about.
pub fn frame_table_keeps(t: FrameTable) -> bool
    ensures { result ≡ frame_table_keeps t }
{
    laws::is_within(1, TASKS as u64, t.ntasks as u64)
        && laws::is_within(1, 10000, t.tick.0)
        && frame_tasks_keep(&t.tasks[..t.ntasks])
        && table::equal_rows(&t.tasks[..t.ntasks]).is_none()
}
