// A table's types, and whether a table keeps the rules. (01, Tables.) The rules are in
// specs/Rules.antt.

#![tactic(auto)]

ghost use Rattle.std.specs.Prelude.{◌≡◌, ℕ, take, map, ◌≤◌};
ghost use Rattle.laws.specs.Choice.{every, unless◌say◌else◌};
ghost use Rattle.table.specs.Refusals.{number_of, is_kept, breaks};
ghost use Rattle.table.specs.Rows.{in_mode, largest, is_timed, is_low, is_d2, mode_value, mode_said, no_table};
ghost use Rattle.table.specs.Rules.{server_keeps, task_keeps, task_fault, task_stands, stays_home, table_keeps};
ghost use Rattle.table.specs.Inner.{place_in, rows_fault, servers_keep, tasks_keep};
ghost use Rattle.table.specs.Pairs.{equal_rows, equal_servers, equal_tasks};

use units::{Micros, Ticks};

// A run holds at most so many rows of each kind.
pub const SERVERS: usize = 32;

pub const TASKS: usize = 64;

pub const MODES: usize = 3;

#[derive(Clone, Copy, PartialEq, Eq)]
pub enum Kind {
    Event,
    Timed,
}

#[derive(Clone, Copy, PartialEq, Eq, PartialOrd, Ord)]
pub enum Level {
    LO,
    MI,
    HI,
}

#[derive(Clone, Copy, PartialEq, Eq, PartialOrd, Ord)]
pub enum Mode {
    N,
    D1,
    D2,
}

// A value for each mode: a server's capacities, a task's limits, a row's verdicts.
#[derive(Clone, Copy)]
pub struct ByMode<T> {
    pub n: T,
    pub d1: T,
    pub d2: T,
}

// A server's first period begins with the tick whose number is its phase.
#[derive(Clone, Copy)]
pub struct Server {
    pub partition: u8,
    pub kind: Kind,
    pub priority: u8,
    pub period: Ticks,
    pub capacity: ByMode<Ticks>,
    pub phase: Ticks,
}

#[derive(Clone, Copy)]
pub struct Task {
    pub home: u8,
    pub degraded: u8,
    pub priority: u8,
    pub level: Level,
    pub limit: ByMode<Ticks>,
}

// The rows in use are the first nservers and the first ntasks.
// Kept: a board has no heap, so rows are arrays of fixed length with their counts beside them.
#[derive(Clone, Copy)]
pub struct Table {
    pub tick: Micros,
    pub nservers: usize,
    pub ntasks: usize,
    pub servers: [Server; SERVERS],
    pub tasks: [Task; TASKS],
}

// Why something is refused, by the paper's number for no: specs/Refusals.antt says it too.
#[derive(Clone, Copy, PartialEq, Eq)]
pub enum Refusal {
    Malformed = 1,
    OutOfBounds = 2,
    NotWhole = 3,
    AbsentRow = 41,
    OtherPartition = 42,
    NotTimed = 43,
    OtherServer = 44,
    Falling = 45,
    EqualPriorities = 5,
    NoTask = 6,
    LowInD2 = 7,
    QueueFull = 8,
    NoJobRan = 9,
    CountSpent = 10,
    NoServer = 11,
    RoomShort = 12,
    Unsound = 13,
}

// The paper's number for no.
// Kept: number_of, mode_value and mode_said are promised by these names.
pub fn number_of(why: Refusal) -> u64
    ensures { result ≡ number_of why }
{
    why as u64
}

// What a line or a row breaks of the rules where it stands, and at which field: they count from 1
// after the leading word, and 0 is the line itself.
#[derive(Clone, Copy)]
pub struct Fault {
    pub why: Refusal,
    pub field: usize,
}

// Kept: field 0 is the line itself: 02, No. 2, has it so, and rows_fault answers by number.
pub const THE_LINE: usize = 0;

// The fields of a task at which it may break a rule on the rows that it names and on its limits.
const HOME: usize = 1;

const DEGRADED: usize = 2;

const LIMIT_D1: usize = 6;

const LIMIT_D2: usize = 7;

fn is_kept(s: Result<(), Fault>) -> bool
    ensures { result ≡ is_kept s }
{
    s.is_ok()
}

// The table that reading begins with: no tick and no rows.
// Kept: zeros are written out: Kind and Level, which the rows hold, have no default.
#[tactic(auto, unfolding(crate::specs::Rows::table_of))]
pub fn no_table() -> Table
    ensures { result ≡ no_table }
{
    let none = ByMode {
        n: Ticks(0),
        d1: Ticks(0),
        d2: Ticks(0),
    };
    let s = Server {
        partition: 0,
        kind: Kind::Event,
        priority: 0,
        period: Ticks(0),
        capacity: none,
        phase: Ticks(0),
    };
    let k = Task {
        home: 0,
        degraded: 0,
        priority: 0,
        level: Level::LO,
        limit: none,
    };
    Table {
        tick: Micros(0),
        nservers: 0,
        ntasks: 0,
        servers: [s; SERVERS],
        tasks: [k; TASKS],
    }
}

// A row of whichever table that has a priority.
pub trait HasPriority {
    ghost priority_of: { Self → ℕ };

    fn priority(&self) -> u8
        ensures { result ≡ priority_of self.now };
}

impl HasPriority for Server {
    ghost priority_of = { λ s. s.priority };

    fn priority(&self) -> u8 {
        self.priority
    }
}

impl HasPriority for Task {
    ghost priority_of = { λ k. k.priority };

    fn priority(&self) -> u8 {
        self.priority
    }
}

// "the first pair of .. rows with equal priority, smaller row first (pairs ordered by it, then by
// the larger row)", or none.
pub fn equal_rows<T: HasPriority>(rows: &[T]) -> Option<(usize, usize)>
    ensures { result ≡ equal_rows (map T.priority_of rows.now) }
{
    let mut answer = None;
    'rows: for (i, x) in rows.iter().enumerate() {
        for (j, y) in rows[i + 1..].iter().enumerate() {
            if x.priority() == y.priority() {
                answer = Some((i, i + 1 + j));
                break 'rows;
            }
        }
    }
    answer
}

// The same of the first count server rows: a count handed in may be past the end.
// Kept: equal_servers, equal_tasks and task_fault are public and take an array and a count.
pub fn equal_servers(ss: [Server; SERVERS], count: usize) -> Option<(usize, usize)>
    ensures { result ≡ equal_servers (take count ss) }
{
    equal_rows(&ss[..count.min(SERVERS)])
}

// "then the same for tasks".
pub fn equal_tasks(ks: [Task; TASKS], count: usize) -> Option<(usize, usize)>
    ensures { result ≡ equal_tasks (take count ks) }
{
    equal_rows(&ks[..count.min(TASKS)])
}

// The one of a mode.
pub fn in_mode<T: Copy>(x: ByMode<T>, m: Mode) -> T
    ensures { result ≡ in_mode x m }
{
    match m {
        Mode::N => x.n,
        Mode::D1 => x.d1,
        Mode::D2 => x.d2,
    }
}

// The largest of the three.
pub fn largest_of(x: ByMode<Ticks>) -> Ticks
    ensures { result ≡ largest x }
{
    Ticks(laws::larger_of(laws::larger_of(x.n.0, x.d1.0), x.d2.0))
}

fn is_timed(k: Kind) -> bool
    ensures { result ≡ is_timed k }
{
    k == Kind::Timed
}

// Kept: as number_of: mode_value, mode_said, is_low and is_d2 are public (docs/FUNCTIONS.md).
pub fn is_low(l: Level) -> bool
    ensures { result ≡ is_low l }
{
    l == Level::LO
}

pub fn is_d2(m: Mode) -> bool
    ensures { result ≡ is_d2 m }
{
    m == Mode::D2
}

// The modes in their order, as numbers: 0, 1, 2.
pub fn mode_value(m: Mode) -> u64
    ensures { result ≡ mode_value m }
{
    m as u64
}

pub fn mode_said(m: u64) -> Mode
    ensures { result ≡ mode_said m }
{
    match m {
        0 => Mode::N,
        1 => Mode::D1,
        _ => Mode::D2,
    }
}

// Whether a task of a timed home has it for its degraded server too; of an event home it may have
// another.
// Kept: home and degraded are two parameters of the public rows_fault and task_fault, so here too.
fn stays_home(kind: Kind, home: u64, degraded: u64) -> bool
    ensures { result ≡ stays_home kind home degraded }
{
    kind == Kind::Event || degraded == home
}

// The rules of a server's row and of a task's row, a test for each of the rule, in its order.
#[tactic(auto, unfolding(crate::specs::Rules::server_keeps))]
fn server_keeps(s: Server) -> bool
    ensures { result ≡ every (server_keeps s) }
{
    laws::all_of(&[
        laws::is_within(0, 15, s.partition as u64),
        laws::is_within(1, 255, s.priority as u64),
        laws::is_within(1, 1000000, s.period.0 as u64),
        s.capacity.n.0 <= s.period.0,
        s.capacity.d1.0 <= s.period.0,
        s.capacity.d2.0 <= s.period.0,
        s.phase.0 < s.period.0,
    ])
}

#[tactic(auto, unfolding(crate::specs::Rules::task_keeps))]
fn task_keeps(k: Task) -> bool
    ensures { result ≡ every (task_keeps k) }
{
    laws::all_of(&[
        laws::is_within(1, 255, k.priority as u64),
        laws::is_within(1, 100000, k.limit.n.0 as u64),
        laws::is_within(1, 100000, k.limit.d1.0 as u64),
        laws::is_within(1, 100000, k.limit.d2.0 as u64),
    ])
}

// The place in the array of the row that a task names, and 0 where the array has no such place, so
// that there is a row to read before it is known whether the one named is there.
// Kept: row_in is public, and its contract answers 0 (place_in).
pub fn row_in(row: u64) -> usize
    ensures { result ≡ place_in row }
{
    if row < SERVERS as u64 {
        row as usize
    } else {
        0
    }
}

// A test that a rule asks: where it does not hold, this is broken, at this field.
fn asked(holds: bool, why: Refusal, field: usize) -> Result<(), Fault>
    ensures { result ≡ (unless holds say breaks why field else Ok tt) }
{
    if holds {
        Ok(())
    } else {
        Err(Fault { why, field })
    }
}

// What a task breaks of the rules on its limits and on the two rows that it names, its home and its
// degraded server, or nothing: the first that applies. A row from the count on is "absent (however
// great its number)", whatever was read for it.
pub fn rows_fault(
    count: usize,
    h: Server,
    d: Server,
    home: u64,
    degraded: u64,
    limit: ByMode<Ticks>,
) -> Result<(), Fault>
    ensures { result ≡ rows_fault count h d home degraded limit }
{
    asked(home < count as u64, Refusal::AbsentRow, HOME)?;
    asked(degraded < count as u64, Refusal::AbsentRow, DEGRADED)?;
    asked(
        d.partition == h.partition,
        Refusal::OtherPartition,
        DEGRADED,
    )?;
    asked(is_timed(d.kind), Refusal::NotTimed, DEGRADED)?;
    asked(
        stays_home(h.kind, home, degraded),
        Refusal::OtherServer,
        DEGRADED,
    )?;
    asked(limit.n.0 <= limit.d1.0, Refusal::Falling, LIMIT_D1)?;
    asked(limit.d1.0 <= limit.d2.0, Refusal::Falling, LIMIT_D2)
}

// The same, the rows being among the first count.
pub fn task_fault(
    ss: [Server; SERVERS],
    count: usize,
    home: u64,
    degraded: u64,
    limit: ByMode<Ticks>,
) -> Result<(), Fault>
    ensures { result ≡ task_fault (take count ss) home degraded limit }
{
    let n = count.min(SERVERS);
    let i = row_in(home);
    let j = row_in(degraded);
    let h = ss[i];
    let d = ss[j];
    rows_fault(n, h, d, home, degraded, limit)
}

// Whether a task's row keeps the rules beside the first n servers.
// Kept: the array and its count, as the public task_fault, which is asked, takes them.
fn task_stands(k: Task, ss: [Server; SERVERS], n: usize) -> bool
    ensures { result ≡ task_stands (take n ss) k }
{
    if !task_keeps(k) {
        return false;
    }
    let limit = k.limit;
    let fault = task_fault(ss, n, k.home as u64, k.degraded as u64, limit);
    is_kept(fault)
}

fn servers_keep(ss: &[Server]) -> bool
    ensures { result ≡ servers_keep ss.now }
{
    ss.iter().all(|s| server_keeps(*s))
}

fn tasks_keep(ks: &[Task], ss: [Server; SERVERS], n: usize) -> bool
    ensures { result ≡ tasks_keep ks.now (take n ss) }
{
    ks.iter().all(|k| task_stands(*k, ss, n))
}

// Whether a table keeps the rules of 01, Tables. Counts come first: no row past the arrays is then
// asked for, and rows past the counts hold nothing that is asked about.
pub fn table_keeps(t: Table) -> bool
    ensures { result ≡ table_keeps t }
{
    laws::is_within(1, SERVERS as u64, t.nservers as u64)
        && laws::is_within(1, TASKS as u64, t.ntasks as u64)
        && laws::is_within(1, 10000, t.tick.0)
        && servers_keep(&t.servers[..t.nservers])
        && tasks_keep(&t.tasks[..t.ntasks], t.servers, t.nservers)
        && equal_rows(&t.servers[..t.nservers]).is_none()
        && equal_rows(&t.tasks[..t.ntasks]).is_none()
}
