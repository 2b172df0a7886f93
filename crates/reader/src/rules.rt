// Whether a line keeps the rules where it stands, or which it breaks and at which field. (01,
// Numbers for no: "line by line"; 02, No. 2.) The rules are lists of tests in crate text,
// specs/Standing.antt, judged in 64 bits as the line has them: only a line that keeps them becomes
// a row. The place of a test is its field, 0 being the line itself; of some fields nothing is
// asked.

ghost use Rattle.std.specs.Prelude.{◌≡◌, true, ◌+◌, ◌≤◌, ◌<◌, leb};
ghost use Rattle.laws.specs.Search.{first_failed};
ghost use Rattle.table.specs.Rules.{tick_keeps};
ghost use Rattle.text.specs.Line.{word_of};
ghost use Rattle.text.specs.Standing.{server_bounds, server_whole, task_bounds, tell◌at◌or◌};
ghost use Rattle.reader.specs.Inner.{placed_by, tick_standing, server_standing, task_standing};
ghost use Rattle.reader.specs.Inner.{named_rows, standing_by};

use crate::rows;
use table::{Fault, Refusal, SERVERS, Server, TASKS, THE_LINE};
use text::{Line, ServerLine, TaskLine, Word};
use units::Micros;

// Kept: tick, counts, h, d: each rule asks for others of them; table::rows_fault takes h and d.
// Kept: bounds of the tick in contracts: before line 1 the tick is 0, and Micros is bare (01).

// Whether a tick of the period is left after the phase: "a phase above the period less one tick, in
// microseconds, is 2".
fn leaves_a_tick(phase: Micros, tick: Micros, period: Micros) -> bool
    ensures { result ≡ leb (phase.0 + tick.0) period.0 }
{
    phase.0 <= period.0 && tick.0 <= period.0 - phase.0
}

#[tactic(auto, unfolding(text::specs::Standing::server_bounds))]
fn server_bounds(rows: usize, tick: Micros, s: ServerLine) -> Option<usize>
    requires { tick.0 ≤ 10000 }
    ensures { result ≡ first_failed (server_bounds rows tick.0 s) }
{
    let partition = laws::is_within(0, 15, s.partition);
    let priority = laws::is_within(1, 255, s.priority);
    let period = s.period.0;
    let lasts = laws::is_within(tick.0, 1000000 * tick.0, period);
    let c = s.capacity;
    let starts = leaves_a_tick(rows::phase_said(s.phase), tick, s.period);
    laws::first_failed(&[
        rows < SERVERS,
        partition,
        true,
        priority,
        lasts,
        c.n.0 <= period,
        c.d1.0 <= period,
        c.d2.0 <= period,
        starts,
    ])
}

#[tactic(auto, unfolding(text::specs::Standing::server_whole))]
fn server_whole(tick: Micros, s: ServerLine) -> Option<usize>
    requires { 0 < tick.0 }
    ensures { result ≡ first_failed (server_whole tick.0 s) }
{
    let period = s.period.0;
    let c = s.capacity;
    let phase = rows::phase_said(s.phase).0;
    laws::first_failed(&[
        true,
        true,
        true,
        true,
        period % tick.0 == 0,
        c.n.0 % tick.0 == 0,
        c.d1.0 % tick.0 == 0,
        c.d2.0 % tick.0 == 0,
        phase % tick.0 == 0,
    ])
}

// A limit is rounded up and then 1 to 100,000 ticks exactly if it is 1 microsecond to 100,000
// ticks.
fn task_bounds(rows: usize, tick: Micros, k: TaskLine) -> Option<usize>
    requires { (0 < tick.0) × (tick.0 ≤ 10000) }
    ensures { result ≡ first_failed (task_bounds rows tick.0 k) }
{
    let priority = laws::is_within(1, 255, k.priority);
    let limit = k.limit;
    let most = 100000 * tick.0;
    let n = laws::is_within(1, most, limit.n.0);
    let d1 = laws::is_within(1, most, limit.d1.0);
    let d2 = laws::is_within(1, most, limit.d2.0);
    laws::first_failed(&[rows < TASKS, true, true, priority, true, n, d1, d2])
}

// Where a line may stand, by how many rows there are above it.
fn is_placed(n: usize, servers: usize, tasks: usize, word: Word) -> bool
    ensures { result ≡ placed_by n servers tasks word }
{
    match word {
        Word::ATick => n == 1,
        Word::AServer => 1 < n && tasks == 0,
        Word::ATask => servers != 0,
        Word::Unknown => false,
    }
}

// Kept: a From would stand in crate text, away from is_placed, for which alone it is asked.
fn word_of(l: Line) -> Word
    ensures { result ≡ word_of l }
{
    match l {
        Line::OfTick(_) => Word::ATick,
        Line::OfServer(_) => Word::AServer,
        Line::OfTask(_) => Word::ATask,
        Line::Malformed(word, _) => word,
    }
}

// What the first test of a rule that fails breaks, if one does.
pub(crate) fn told(why: Refusal, failed: Option<usize>) -> Result<(), Fault>
    ensures { result ≡ (tell why at failed or (Ok tt)) }
{
    match failed {
        Some(field) => Err(Fault { why, field }),
        None => Ok(()),
    }
}

// Lines of each kind, in their place.
#[tactic(auto, unfolding(laws::specs::Search::first_failed, laws::specs::Search::least))]
pub(crate) fn tick_standing(u: Micros) -> Result<(), Fault>
    ensures { result ≡ tick_standing u }
{
    if !laws::is_within(1, 10000, u.0) {
        return Err(Fault {
            why: Refusal::OutOfBounds,
            field: 1,
        });
    }
    Ok(())
}

fn server_standing(tick: Micros, servers: usize, s: ServerLine) -> Result<(), Fault>
    requires { tick_keeps tick.0 ≡ true }
    ensures { result ≡ server_standing tick.0 servers s }
{
    told(Refusal::OutOfBounds, server_bounds(servers, tick, s))?;
    told(Refusal::NotWhole, server_whole(tick, s))
}

fn task_standing(
    tick: Micros,
    h: Server,
    d: Server,
    count: usize,
    tasks: usize,
    k: TaskLine,
) -> Result<(), Fault>
    requires { tick_keeps tick.0 ≡ true }
    ensures { result ≡ task_standing tick.0 h d count tasks k }
{
    told(Refusal::OutOfBounds, task_bounds(tasks, tick, k))?;
    let limit = rows::limits(k.limit, tick);
    table::rows_fault(count, h, d, k.home, k.degraded, limit)
}

// Kept: rows 0 where none is named: an Option would have to be asked before each row is read.

// Where the two server rows that a task line names are read; for a line that names none, row 0 is.
#[derive(Clone, Copy)]
pub struct Named {
    pub home: usize,
    pub degraded: usize,
}

pub(crate) fn named_rows(l: Line) -> Named
    ensures { result ≡ named_rows l }
{
    match l {
        Line::OfTask(k) => Named {
            home: table::row_in(k.home),
            degraded: table::row_in(k.degraded),
        },
        _ => Named {
            home: 0,
            degraded: 0,
        },
    }
}

// n is the line's number. Of the rows above it these are the tick, how many servers and tasks there
// are, and the rows h and d read for home and degraded server. A misplaced line is told as the line
// itself, whatever its fields hold.
pub(crate) fn line_standing(
    n: usize,
    tick: Micros,
    servers: usize,
    tasks: usize,
    h: Server,
    d: Server,
    l: Line,
) -> Result<(), Fault>
    requires { (n ≤ 1 → servers ≡ 0) × (1 < n → tick_keeps tick.0 ≡ true) }
    ensures { result ≡ standing_by n tick.0 servers tasks h d l }
{
    if !is_placed(n, servers, tasks, word_of(l)) {
        return Err(Fault {
            why: Refusal::Malformed,
            field: THE_LINE,
        });
    }
    match l {
        Line::OfTick(u) => tick_standing(u),
        Line::OfServer(s) => server_standing(tick, servers, s),
        Line::OfTask(k) => task_standing(tick, h, d, servers, tasks, k),
        Line::Malformed(_, field) => Err(Fault {
            why: Refusal::Malformed,
            field,
        }),
    }
}
