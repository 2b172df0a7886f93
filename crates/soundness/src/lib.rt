// Whether a state is sound. (01, Numbers for no: "A state is sound (else 13) if ..") Asked once, at
// the door.
//
// Kept: a table and a state apart, since run_sound keeps its signature (docs/FUNCTIONS.md).

#![tactic(auto)]

ghost use Rattle.std.specs.Prelude.{◌≡◌, ◌&&◌, ◌||◌, ◌≤◌, leb, ltb, eqb};
ghost use Rattle.laws.specs.Choice.{every};
ghost use Rattle.table.specs.Rows.{is_low, is_d2};
ghost use Rattle.run.specs.Sound.{sound};
ghost use Rattle.soundness.specs.Inner.{server_tests, task_tests, servers_sound, tasks_sound};

use run::State;
use table::{Level, Mode, Server, Table, Task};

// Of a server before its phase: "used 0 and elapsed 0". Of one that has started it is not asked.
fn unused_before(phase: u32, ticks: u32, used: u32, elapsed: u32) -> bool
    ensures { result ≡ (leb phase ticks || eqb used 0 && eqb elapsed 0) }
{
    phase <= ticks || used == 0 && elapsed == 0
}

fn server_sound(s: &Server, ticks: u32, used: u32, elapsed: u32) -> bool
    ensures { result ≡ every (server_tests s.now ticks used elapsed) }
{
    let most = table::largest_of(s.capacity).0;
    let before = unused_before(s.phase.0, ticks, used, elapsed);
    laws::all_of(&[elapsed <= s.period.0, used <= elapsed, used <= most, before])
}

// Kept: the counts by the row's number in both loops; zips of three arrays nest the pattern.
fn servers_sound(t: &Table, s: &State) -> bool
    requires { t.now.nservers ≤ 32 }
    ensures { result ≡ servers_sound t.now s.now t.now.nservers }
{
    for (i, row) in t.servers[..t.nservers].iter().enumerate() {
        if !server_sound(row, s.ticks.0, s.used[i], s.elapsed[i]) {
            return false;
        }
    }
    true
}

fn low_waits(m: Mode, l: Level, waiting: u8) -> bool
    ensures { result ≡ (is_d2 m && (is_low l && ltb 0 waiting)) }
{
    table::is_d2(m) && table::is_low(l) && 0 < waiting
}

fn task_sound(k: &Task, m: Mode, waiting: u8, runs: u32, last: bool) -> bool
    ensures { result ≡ every (task_tests k.now m waiting runs last) }
{
    let limit = table::in_mode(k.limit, m).0;
    let queue = queues::queue_sound(limit, waiting, runs, last);
    let low = low_waits(m, k.level, waiting);
    laws::all_of(&[queue, !low])
}

fn tasks_sound(t: &Table, s: &State) -> bool
    requires { t.now.ntasks ≤ 64 }
    ensures { result ≡ tasks_sound t.now s.now t.now.ntasks }
{
    for (k, row) in t.tasks[..t.ntasks].iter().enumerate() {
        let ran = queues::is_last(s.last, k);
        if !task_sound(row, s.mode, s.waiting[k], s.runs[k], ran) {
            return false;
        }
    }
    true
}

#[tactic(auto, using(crate::proofs::Inner::servers_fit, crate::proofs::Inner::tasks_fit))]
pub fn run_sound(t: Table, s: State) -> bool
    ensures { result ≡ sound (record { table = t; state = s }) }
{
    if !table::table_keeps(t) {
        return false;
    }
    let servers = servers_sound(&t, &s);
    let tasks = tasks_sound(&t, &s);
    let last = queues::last_sound(t.ntasks, s.waiting, s.runs, s.ticks.0, s.last);
    let counts = queues::counts_sound(t.ntasks, s.waiting, s.ticks.0, s.accepted);
    laws::all_of(&[servers, tasks, last, counts])
}
