// What steps 5 to 7 of a tick change. (01, What one tick does.)

ghost use Rattle.std.specs.Prelude.{◌≡◌, ◌≤◌};
ghost use Rattle.queues.specs.Queues.{last_of};
ghost use Rattle.scheduler.specs.Inner.Steps.{ChargeFits, Charges, RunFits, RunsFront};
ghost use Rattle.scheduler.specs.Inner.Steps.{Low, Ages, CountsFit, Advances};

use crate::count_if;
use crate::sheets::{PHASE, Sheets};
use events::Turn;
use run::State;
use table::{SERVERS, TASKS};
use units::Ticks;

// Step 5: "The highest is charged: used plus 1."
fn charge(turn: Turn, used: &mut [u32; SERVERS])
    requires { ChargeFits turn used.old }
    ensures { Charges turn used.old used.new }
{
    match turn {
        Turn::Run { server, .. } | Turn::Empty { server } => used[server] += 1,
        Turn::Idle => {}
    }
}

// Step 6: "runs the front job: run count plus 1"
fn run_front(turn: Turn, runs: &mut [u32; TASKS])
    requires { RunFits turn runs.old }
    ensures { RunsFront turn runs.old runs.new }
{
    if let Turn::Run { task, .. } = turn {
        queues::run_front(task, runs);
    }
}

// The job that is run in this tick is the last-run job of the next.
// Kept: five lines, in each box: one for both would be one more public function.
fn last_of(turn: Turn) -> Option<usize>
    ensures { result ≡ last_of turn }
{
    match turn {
        Turn::Run { task, .. } => Some(task),
        Turn::Empty { .. } | Turn::Idle => None,
    }
}

// Step 7: "All elapsed counts .. rise by 1", of servers that have started.
fn age(sheets: &Sheets, ticks: u32, elapsed: &mut [u32; SERVERS])
    requires { (sheets.now.nservers ≤ 32) × Low sheets.now.nservers elapsed.old }
    ensures { Ages sheets.now ticks elapsed.old elapsed.new }
{
    // Kept: a row is counted, since it stands in a column and in the counts at once.
    for i in 0..sheets.nservers {
        elapsed[i] += count_if(sheets.servers[PHASE + i] <= ticks, 1);
    }
}

// Steps 5 to 7, the tick saying `turn`.
pub(crate) fn advance(sheets: &Sheets, state: &mut State, turn: Turn)
    requires { CountsFit sheets.now turn state.old }
    ensures { Advances sheets.now turn state.old state.new }
{
    charge(turn, &mut state.used);
    run_front(turn, &mut state.runs);
    state.last = last_of(turn);
    age(sheets, state.ticks.0, &mut state.elapsed);
    state.ticks = Ticks(state.ticks.0 + 1);
}
