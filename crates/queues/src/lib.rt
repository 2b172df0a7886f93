// The queues of a run's tasks, whichever box they are in: of each task how many jobs wait, and the
// run count of the front one. (01, What one tick does.) They are lent as two arrays; what a step
// makes of them is in specs/Queues.antt, and when they are sound in specs/Sound.antt.
//
// Kept: n, waiting and runs, and a queue's four numbers, apart: public (docs/FUNCTIONS.md).

#![tactic(auto)]

ghost use Rattle.std.specs.Prelude.{◌≡◌, get_or, ◌<◌};
ghost use Rattle.laws.specs.Choice.{every};
ghost use Rattle.laws.specs.Rows.{sum_below};
ghost use Rattle.queues.specs.Queues.{is_last, ran_job};
ghost use Rattle.queues.specs.Sound.{front_sound, queue_sound, last_sound, counts_sound};
ghost use Rattle.queues.specs.Inner.{joined_waiting, left_waiting, left_runs, ran_once};

use table::TASKS;

// At most so many jobs of one task wait.
pub const QUEUE: u8 = 16;

// At most so many ticks are taken, and as many releases accepted.
pub const MOST: u32 = 4000000000;

// The last-run job is told by its task: none where the last taken tick ran no job, or none was
// taken.
pub fn is_last(last: Option<usize>, k: usize) -> bool
    ensures { result ≡ is_last last k }
{
    last == Some(k)
}

pub fn ran_job(last: Option<usize>) -> bool
    ensures { result ≡ ran_job last }
{
    last.is_some()
}

// "A release adds one job at the back of its task's queue". A queue that is full stays as it is,
// and so do they all where there is no such row.
pub fn join(k: usize, waiting: &mut [u8; TASKS])
    ensures { waiting.new ≡ joined_waiting waiting.old k }
{
    if k < TASKS && waiting[k] < QUEUE {
        waiting[k] += 1;
    }
}

// The front job of task k leaves, and the next one's count starts at 0. Of no jobs there is none
// fewer.
pub fn leave(k: usize, waiting: &mut [u8; TASKS], runs: &mut [u32; TASKS])
    ensures { (waiting.new ≡ left_waiting waiting.old k)
        × (runs.new ≡ left_runs runs.old k) }
{
    if k < TASKS {
        waiting[k] = waiting[k].saturating_sub(1);
        runs[k] = 0;
    }
}

// "runs the front job: run count plus 1". A count that 32 bits no longer hold stays as it is.
pub fn run_front(k: usize, runs: &mut [u32; TASKS])
    ensures { runs.new ≡ ran_once runs.old k }
{
    if k < TASKS {
        runs[k] = runs[k].saturating_add(1);
    }
}

fn front_sound(limit: u32, waiting: u8, runs: u32, last: bool) -> bool
    ensures { result ≡ front_sound limit waiting runs last }
{
    if waiting == 0 {
        return runs == 0;
    }
    runs < limit || last && runs == limit
}

// Whether the queue of a task with this limit is sound; `last` says whether it is the last-run one.
pub fn queue_sound(limit: u32, waiting: u8, runs: u32, last: bool) -> bool
    ensures { result ≡ every (queue_sound limit waiting runs last) }
{
    let front = front_sound(limit, waiting, runs, last);
    laws::all_of(&[waiting <= QUEUE, front])
}

// A number of jobs, to be added up.
pub fn job_count(x: u8) -> u32
    ensures { (result ≡ x) × (result < 256) }
{
    u32::from(x)
}

// How many jobs of the first n tasks wait.
pub fn jobs_waiting(n: usize, waiting: [u8; TASKS]) -> u32
    ensures { result ≡ sum_below n (λ k. get_or waiting k 0) }
{
    let mut count = 0;
    for w in &waiting[..n.min(TASKS)] {
        count += job_count(*w);
    }
    count
}

// Whether the last-run job is sound: of n tasks, these being the queues and so many ticks taken.
pub fn last_sound(
    n: usize,
    waiting: [u8; TASKS],
    runs: [u32; TASKS],
    ticks: u32,
    last: Option<usize>,
) -> bool
    ensures { result ≡ last_sound n (record { waiting = waiting; runs = runs }) ticks last }
{
    let Some(k) = last else {
        return true;
    };
    if n.min(TASKS) <= k {
        return false;
    }
    laws::all_of(&[true, 0 < waiting[k], 1 <= runs[k], 1 <= ticks])
}

// Whether both counts are within their bounds, and the releases no fewer than the jobs that wait.
pub fn counts_sound(n: usize, waiting: [u8; TASKS], ticks: u32, accepted: u32) -> bool
    ensures { result ≡ every (counts_sound n (λ k. get_or waiting k 0) ticks accepted) }
{
    let jobs = jobs_waiting(n, waiting);
    laws::all_of(&[ticks <= MOST, accepted <= MOST, jobs <= accepted])
}
