// Steps 5 and 6 of a tick. (01, What one tick does.) One walk over the tasks finds each server's
// highest task with a waiting job, so that the walk over the servers need not look for one.

// Kept: the walks count rows, as row k stands in several columns and in the state at once.

// Kept: what is found is lent as plain numbers, of which 0 is none: crate run's found_values.

ghost use Rattle.std.specs.Prelude.{◌≡◌, ◌&&◌, ◌||◌, ◌≤◌, ltb, take, replicate};
ghost use Rattle.queues.specs.Queues.{turn_of};
ghost use Rattle.laws.specs.Rows.{found_by};
ghost use Rattle.scheduler.specs.Inner.Choose.{Owned, TopsFound, AbleFound, Chooses};
ghost use Rattle.scheduler.specs.Inner.Steps.{SomeTable};

use crate::count_if;
use crate::sheets::{CAPACITIES, OWNERS, PHASE, SERVER_PRIORITY, Sheets, TASK_PRIORITY};
use events::Turn;
use run::{FOUND_VALUES, State};
use table::SERVERS;

// Whether a task has a waiting job and is above what was found so far.
fn is_higher(waiting: u8, priority: u32, height: u8) -> bool
    ensures { result ≡ (ltb 0 waiting && ltb height priority) }
{
    0 < waiting && u32::from(height) < priority
}

// Of each server, the highest task with a waiting job, and its priority: by the table's rules it is
// at most 255, and 0 is nothing found. The priorities stand in the first places of what is found,
// one for each server; the other places stay as they are.
fn find_tops(
    sheets: &Sheets,
    state: &State,
    found: &mut [u8; FOUND_VALUES],
    top: &mut [u8; SERVERS],
)
    requires { Owned sheets.now state.now.mode × (take 32 found.old ≡ replicate 32 0)
        × (top.old ≡ replicate 32 0) }
    ensures { TopsFound sheets.now state.now found.old found.new top.new }
{
    let column = table::in_mode(OWNERS, state.mode);
    for k in 0..sheets.ntasks {
        let o = sheets.tasks[column + k] as usize;
        let priority = sheets.tasks[TASK_PRIORITY + k];
        if is_higher(state.waiting[k], priority, found[o]) {
            found[o] = priority as u8;
            top[o] = k as u8;
        }
    }
}

// Whether a server with this capacity in force is able; `waits` says whether a job of it waits.
fn is_able(force: u32, used: u32, timed: bool, waits: bool) -> bool
    ensures { result ≡ (ltb used force && (timed || waits)) }
{
    used < force && (timed || waits)
}

// The highest able server. A job of server i waits if `found[i]` is not 0.
fn find_able(sheets: &Sheets, state: &State, found: &[u8; FOUND_VALUES]) -> Option<usize>
    requires { sheets.now.nservers ≤ 32 }
    ensures { AbleFound sheets.now state.now found.now result }
{
    let column = table::in_mode(CAPACITIES, state.mode);
    // Kept: two numbers in the walk, where an Option of both would be taken apart at each row.
    let mut best: usize = 0;
    let mut high: u32 = 0;
    for i in 0..sheets.nservers {
        let priority = sheets.servers[SERVER_PRIORITY + i];
        if high < priority {
            let started = sheets.servers[PHASE + i] <= state.ticks.0;
            let force = count_if(started, sheets.servers[column + i]);
            if is_able(force, state.used[i], sheets.is_timed(i), 0 < found[i]) {
                high = priority;
                best = i;
            }
        }
    }
    if high == 0 { None } else { Some(best) }
}

// What is said of the server that is charged, its highest task with a waiting job being as found.
fn turn_of(server: usize, height: u8, task: u8) -> Turn
    ensures { result ≡ turn_of server (found_by height task) }
{
    if height == 0 {
        return Turn::Empty { server };
    }
    Turn::Run {
        server,
        task: usize::from(task),
    }
}

// What the tick says. What is found of the servers is noted, where nothing is noted of them yet.
pub(crate) fn choose_turn(sheets: &Sheets, state: &State, found: &mut [u8; FOUND_VALUES]) -> Turn
    requires { SomeTable sheets.now × (take 32 found.old ≡ replicate 32 0) }
    ensures { Chooses sheets.now state.now found.old found.new result }
{
    let mut top = [0u8; SERVERS];
    find_tops(sheets, state, found, &mut top);
    let Some(server) = find_able(sheets, state, found) else {
        return Turn::Idle;
    };
    turn_of(server, found[server], top[server])
}
