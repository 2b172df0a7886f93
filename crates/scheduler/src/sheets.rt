// The rows of a table as plain numbers, a sheet for each kind of row: a column after the other, and
// only the columns that a step reads. So a step is lent two arrays, and what it does not read stays
// away from it.

ghost use Rattle.std.specs.Prelude.{◌≡◌, ◌+◌, ◌<◌, length, get_or};
ghost use Rattle.table.specs.Rows.{no_server, no_task};
ghost use Rattle.scheduler.specs.Inner.Columns.{level_of, limits_of, timed_of, SheetsOf};
ghost use Rattle.scheduler.specs.Inner.Columns.{server_cells, task_cells, written, OnSheet};

use table::{ByMode, Level, SERVERS, Server, TASKS, Table, Task};
use units::Ticks;

// Kept: a row's numbers, kind and level among them, stand in columns (docs/SPEED.md, What costs).

// Where each column begins.
pub(crate) const SERVER_PRIORITY: usize = 0;

const KIND: usize = SERVERS;

pub(crate) const PERIOD: usize = 2 * SERVERS;

const CAPACITY_N: usize = 3 * SERVERS;

const CAPACITY_D1: usize = 4 * SERVERS;

const CAPACITY_D2: usize = 5 * SERVERS;

pub(crate) const PHASE: usize = 6 * SERVERS;

const SERVER_CELLS: usize = 7 * SERVERS;

const HOME: usize = 0;

const DEGRADED: usize = TASKS;

pub(crate) const TASK_PRIORITY: usize = 2 * TASKS;

const LEVEL: usize = 3 * TASKS;

const LIMIT_N: usize = 4 * TASKS;

const LIMIT_D1: usize = 5 * TASKS;

const LIMIT_D2: usize = 6 * TASKS;

const TASK_CELLS: usize = 7 * TASKS;

// "In N a task belongs to its home, else to its degraded server.": the column of the owners.
pub(crate) const OWNERS: ByMode<usize> = ByMode {
    n: HOME,
    d1: DEGRADED,
    d2: DEGRADED,
};

// The column of the capacities.
pub(crate) const CAPACITIES: ByMode<usize> = ByMode {
    n: CAPACITY_N,
    d1: CAPACITY_D1,
    d2: CAPACITY_D2,
};

// What a step is lent of a table: its sheets, and how many rows of each are in use.
// Kept: a step asks of the sheets what it needs, so that it holds of every table they show.
#[derive(Clone, Copy)]
pub struct Sheets {
    pub nservers: usize,
    pub ntasks: usize,
    pub servers: [u32; SERVER_CELLS],
    pub tasks: [u32; TASK_CELLS],
}

impl Sheets {
    pub(crate) fn of(t: &Table) -> Sheets
        ensures { SheetsOf t.now result }
    {
        Sheets {
            nservers: t.nservers,
            ntasks: t.ntasks,
            servers: server_sheet(&t.servers),
            tasks: task_sheet(&t.tasks),
        }
    }

    // Of task k.
    // Kept: a cell of this column is 0 to 2, so a TryFrom would refuse what never stands there.
    pub(crate) fn level(&self, k: usize) -> Level
        requires { k < 64 }
        ensures { result ≡ level_of self.now k }
    {
        match self.tasks[LEVEL + k] {
            0 => Level::LO,
            1 => Level::MI,
            _ => Level::HI,
        }
    }

    // Of task k.
    pub(crate) fn limits(&self, k: usize) -> ByMode<Ticks>
        requires { k < 64 }
        ensures { result ≡ limits_of self.now k }
    {
        ByMode {
            n: Ticks(self.tasks[LIMIT_N + k]),
            d1: Ticks(self.tasks[LIMIT_D1 + k]),
            d2: Ticks(self.tasks[LIMIT_D2 + k]),
        }
    }

    // Of server i.
    pub(crate) fn is_timed(&self, i: usize) -> bool
        requires { i < 32 }
        ensures { result ≡ timed_of self.now i }
    {
        self.servers[KIND + i] != 0
    }
}

// Kept: a sheet for each kind of row, since the rows' fields differ: a trait would be longer.

fn put_server(sheet: &mut [u32; SERVER_CELLS], i: usize, s: Server)
    requires { i < 32 }
    ensures { sheet.new ≡ written 32 0 (server_cells s) i sheet.old }
{
    sheet[SERVER_PRIORITY + i] = u32::from(s.priority);
    sheet[KIND + i] = s.kind as u32;
    sheet[PERIOD + i] = s.period.0;
    sheet[CAPACITY_N + i] = s.capacity.n.0;
    sheet[CAPACITY_D1 + i] = s.capacity.d1.0;
    sheet[CAPACITY_D2 + i] = s.capacity.d2.0;
    sheet[PHASE + i] = s.phase.0;
}

fn server_sheet(servers: &[Server; SERVERS]) -> [u32; SERVER_CELLS]
    ensures { (length servers.now ≡ 32)
        × OnSheet 32 7 (λ i. server_cells (get_or servers.now i no_server)) 32 result }
{
    let mut sheet = [0u32; SERVER_CELLS];
    for (i, s) in servers.iter().enumerate() {
        put_server(&mut sheet, i, *s);
    }
    sheet
}

fn put_task(sheet: &mut [u32; TASK_CELLS], k: usize, t: Task)
    requires { k < 64 }
    ensures { sheet.new ≡ written 64 0 (task_cells t) k sheet.old }
{
    sheet[HOME + k] = u32::from(t.home);
    sheet[DEGRADED + k] = u32::from(t.degraded);
    sheet[TASK_PRIORITY + k] = u32::from(t.priority);
    sheet[LEVEL + k] = t.level as u32;
    sheet[LIMIT_N + k] = t.limit.n.0;
    sheet[LIMIT_D1 + k] = t.limit.d1.0;
    sheet[LIMIT_D2 + k] = t.limit.d2.0;
}

fn task_sheet(tasks: &[Task; TASKS]) -> [u32; TASK_CELLS]
    ensures { (length tasks.now ≡ 64)
        × OnSheet 64 7 (λ k. task_cells (get_or tasks.now k no_task)) 64 result }
{
    let mut sheet = [0u32; TASK_CELLS];
    for (k, t) in tasks.iter().enumerate() {
        put_task(&mut sheet, k, *t);
    }
    sheet
}
