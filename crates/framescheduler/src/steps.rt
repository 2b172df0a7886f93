// Events on a run that is sound. Whether it is, is decided at the door; each of these keeps it so.
// The run is lent, so that neither its table nor its state is copied for a line.
// Kept: crate scheduler has these over its own table and state; only the tests are alike.
// Kept: r is written, frame is read: two loans, which a struct would only wrap.

ghost use Rattle.std.specs.Prelude.{◌≡◌, not, ◌&&◌, ◌||◌, ◌≤◌, ◌/◌, ltb, eqb, length};
ghost use Rattle.laws.specs.Rows.{found_by};
ghost use Rattle.slots.specs.Frame.{the_frame};
ghost use Rattle.events.specs.Values.{lines_said};
ghost use Rattle.events.specs.Boxes.{told_in, after_line_in};
ghost use Rattle.queues.specs.Queues.{turn_of, last_of, ran_job};
ghost use Rattle.framerun.specs.Release.{release_of};
ghost use Rattle.framerun.specs.Tick.{settle, tick_of};
ghost use Rattle.framerun.specs.Events.{event_of, frame_box};
ghost use Rattle.framerun.specs.Many.{taken};
ghost use Rattle.framescheduler.specs.Inner.{head_of, highest_in, Numbered, LastLow, TurnLow};
ghost use Rattle.framescheduler.specs.Inner.{RunsOn, SoundRun};

use events::{Answer, Event, LINE_VALUES, Left, TOLD_VALUES, TickAnswer, Told, Turn};
use framerun::{FrameRun, FrameState};
use frametable::{FrameTable, FrameTask};
use queues::{MOST, QUEUE};
use slots::SLOTS;
use table::{Mode, Refusal, TASKS};
use units::Ticks;

// The front job of the last-run task: "Mark 1: that job leaves, finished", and "a job reaching its
// limit is cut".
fn settle(t: &FrameTable, s: &mut FrameState, mark: bool) -> Left
    requires { LastLow s.old.last }
    ensures settles { settle t.now s.old mark s.old.last ≡ record { state = s.new; left = result } }
    ensures kept { head_of s.new ≡ head_of s.old }
{
    match s.last {
        None => Left::Nobody,
        Some(k) => {
            if mark {
                queues::leave(k, &mut s.waiting, &mut s.runs);
                return Left::Done(k);
            }
            if s.runs[k] == t.tasks[k].limit.0 {
                queues::leave(k, &mut s.waiting, &mut s.runs);
                return Left::Cut(k);
            }
            Left::Nobody
        }
    }
}

// Whether a task is of this partition, has a waiting job, and is above what was found so far.
// Kept: a row by value: its fields are then read at once, whatever the first test says. Lent, a frame
// box of 64 tasks took 1.08 to 1.29 of the time.
fn is_higher(k: FrameTask, waiting: u8, p: u8, height: u8) -> bool
    ensures { result ≡ ((ltb 0 waiting && eqb k.partition p) && ltb height k.priority) }
{
    waiting != 0 && k.partition == p && height < k.priority
}

// A walk keeps the highest row passed; priorities are at least 1, so height 0 is nothing found.
// Kept: the height of a walk is compared at each row, where an Option would be opened first.
fn found_by(height: u8, row: usize) -> Option<usize>
    ensures { result ≡ found_by height row }
{
    if height == 0 {
        return None;
    }
    Some(row)
}

// The partition's highest task with a waiting job.
fn highest_task(t: &FrameTable, waiting: &[u8; TASKS], p: u8) -> Option<usize>
    requires { Numbered t.now }
    ensures { result ≡ highest_in t.now waiting.now p }
{
    let mut row: usize = 0;
    let mut height: u8 = 0;
    for (k, task) in t.tasks[..t.ntasks].iter().enumerate() {
        if is_higher(*task, waiting[k], p, height) {
            height = task.priority;
            row = k;
        }
    }
    found_by(height, row)
}

// What is said of a slot: its partition runs a job of the task found, or it is empty.
fn turn_of(p: u8, found: Option<usize>) -> Turn
    ensures { result ≡ turn_of p found }
{
    let server = p as usize;
    match found {
        Some(task) => Turn::Run { server, task },
        None => Turn::Empty { server },
    }
}

// Kept: five lines, in each box: one for both would be one more public function.
fn last_of(turn: Turn) -> Option<usize>
    ensures { result ≡ last_of turn }
{
    match turn {
        Turn::Run { task, .. } => Some(task),
        Turn::Empty { .. } | Turn::Idle => None,
    }
}

// "runs the front job: run count plus 1"
fn run_turn(turn: Turn, runs: &mut [u32; TASKS])
    requires { TurnLow turn runs.old }
    ensures { RunsOn turn runs.old runs.new }
{
    if let Turn::Run { task, .. } = turn {
        queues::run_front(task, runs);
    }
}

// A release: "A release adds one job at the back of its task's queue." Refused: 6, 8, 10.
fn release_in(r: &mut FrameRun, task: usize) -> Answer
    requires { SoundRun r.old }
    ensures { record { answer = result; run = r.new } ≡ release_of r.old task }
{
    if r.table.ntasks <= task {
        return Answer::No(Refusal::NoTask);
    }
    if QUEUE <= r.state.waiting[task] {
        return Answer::No(Refusal::QueueFull);
    }
    if MOST <= r.state.accepted {
        return Answer::No(Refusal::CountSpent);
    }
    queues::join(task, &mut r.state.waiting);
    r.state.accepted += 1;
    Answer::Released(task)
}

// Whether a mark may come: 9 is for mark 1 where the last taken tick ran no job.
fn mark_may_come(last: Option<usize>, mark: bool) -> bool
    ensures { result ≡ (not mark || ran_job last) }
{
    !mark || queues::ran_job(last)
}

// One tick: the mark, the slot's partition, the job that runs. Refused: 9, 10.
fn tick_in(r: &mut FrameRun, frame: &[u8; SLOTS], mark: bool) -> Answer
    requires { SoundRun r.old × (frame.now ≡ the_frame) }
    ensures { record { answer = result; run = r.new } ≡ tick_of r.old mark }
{
    if !mark_may_come(r.state.last, mark) {
        return Answer::No(Refusal::NoJobRan);
    }
    let tick = r.state.ticks;
    if MOST <= tick.0 {
        return Answer::No(Refusal::CountSpent);
    }
    let left = settle(&r.table, &mut r.state, mark);
    let p = slots::slot_in(frame, tick.0);
    let turn = turn_of(p, highest_task(&r.table, &r.state.waiting, p));
    run_turn(turn, &mut r.state.runs);
    r.state.last = last_of(turn);
    r.state.ticks = Ticks(tick.0 + 1);
    Answer::Ticked(TickAnswer {
        tick,
        mode: Mode::N,
        turn,
        left,
        discarded: 0,
    })
}

// An event, taken or refused.
pub(crate) fn event_in(r: &mut FrameRun, frame: &[u8; SLOTS], e: Event) -> Answer
    requires { SoundRun r.old × (frame.now ≡ the_frame) }
    ensures { record { answer = result; run = r.new } ≡ event_of r.old e }
{
    match e {
        Event::Release(task) => release_in(r, task),
        Event::Tick(mark) => tick_in(r, frame, mark),
    }
}

// A line: the event that it says is taken or refused; "another line .. answers `?⇥no⇥1`" and
// changes nothing.
fn answer_line(r: &mut FrameRun, frame: &[u8; SLOTS], line: Option<Event>) -> Told
    requires { SoundRun r.old × (frame.now ≡ the_frame) }
    ensures { (result ≡ told_in frame_box r.old line)
        × (r.new ≡ after_line_in frame_box r.old line) }
{
    match line {
        Some(e) => events::told_of(event_in(r, frame, e)),
        None => Told::No(table::number_of(Refusal::Malformed)),
    }
}

// The lines one after the other: what is told to them.
pub(crate) fn answer_lines(r: &mut FrameRun, frame: &[u8; SLOTS], lines: &[u64], told: &mut [u64])
    requires { (length lines.now / 2 ≤ length told.old / 9)
        × SoundRun r.old × (frame.now ≡ the_frame) }
    ensures { record { many = record { answer = Ok tt; run = r.new }; room = told.new }
        ≡ taken r.old (lines_said lines.now) told.old }
{
    let (pairs, _) = lines.as_chunks::<LINE_VALUES>();
    for (i, line) in pairs.iter().enumerate() {
        let x = answer_line(r, frame, events::line_said(line[0], line[1]));
        events::put_told(x, told, TOLD_VALUES * i);
    }
}
