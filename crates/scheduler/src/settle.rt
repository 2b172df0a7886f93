// Steps 1 to 4 of a tick. (01, What one tick does.)

ghost use Rattle.std.specs.Prelude.{◌≡◌, ◌≤◌, get_or};
ghost use Rattle.laws.specs.Rows.{anew, any_below, sum_below};
ghost use Rattle.run.specs.Tick.{counts_as, raises, raised, enters};
ghost use Rattle.scheduler.specs.Inner.Steps.{Judges, RanJob, Marks, none_found, kept_of};
ghost use Rattle.scheduler.specs.Inner.Steps.{gone_of, noted_of, Discards, waits_at, SettlesMode};
ghost use Rattle.scheduler.specs.Inner.Steps.{Refills, Few, Settles};

use crate::count_if;
use crate::sheets::{PERIOD, Sheets};
use events::Left;
use run::{FOUND_VALUES, Judged, State};
use table::{ByMode, Level, Mode, SERVERS, TASKS};
use units::Ticks;

// What steps 1 to 4 tell: the job that left, and how many were discarded.
#[derive(Clone, Copy)]
pub struct Settling {
    pub left: Left,
    pub discarded: u32,
}

// Kept: a rule of step 1, not what a Mode is: as a From it would hold everywhere.
// "N counting as LO and D1 as MI", and D2 as HI
fn counts_as(m: Mode) -> Level
    ensures { result ≡ counts_as m }
{
    match m {
        Mode::N => Level::LO,
        Mode::D1 => Level::MI,
        Mode::D2 => Level::HI,
    }
}

// "its level lies above the present one"
fn raises(m: Mode, l: Level) -> bool
    ensures { result ≡ raises m l }
{
    counts_as(m) < l
}

fn raised(m: Mode) -> Mode
    ensures { result ≡ raised m }
{
    match m {
        Mode::N => Mode::D1,
        Mode::D1 | Mode::D2 => Mode::D2,
    }
}

// "at its limit a job raises the mode only if its level lies above the present one ..; otherwise it
// is cut", "After a rise, judge again at the new limit." The job is of a task with these limits and
// this level, and has run so many ticks.
fn judge_job(x: ByMode<Ticks>, l: Level, c: u32, m: Mode) -> Judged
    ensures { Judges x l c m result }
{
    let mut mode = m;
    while c == table::in_mode(x, mode).0 {
        if !raises(mode, l) {
            return Judged { mode, cut: true };
        }
        mode = raised(mode);
    }
    Judged { mode, cut: false }
}

// Step 1: the job that left.
fn mark_job(sheets: &Sheets, state: &mut State, mark: bool) -> Left
    requires { Few sheets.now × RanJob sheets.now state.old.waiting state.old.last }
    ensures { Marks sheets.now mark state.old state.new result }
{
    let Some(k) = state.last else {
        return Left::Nobody;
    };
    if mark {
        queues::leave(k, &mut state.waiting, &mut state.runs);
        return Left::Done(k);
    }
    let judged = judge_job(sheets.limits(k), sheets.level(k), state.runs[k], state.mode);
    state.mode = judged.mode;
    if judged.cut {
        queues::leave(k, &mut state.waiting, &mut state.runs);
        return Left::Cut(k);
    }
    Left::Nobody
}

// Whether step 2 has anything to do: the mode was not D2 and is.
fn enters_d2(before: Mode, after: Mode) -> bool
    ensures { result ≡ enters before after }
{
    table::is_d2(after) && !table::is_d2(before)
}

// Kept: drop_low and refill count rows, which stand in a column and in several counts at once.

// The jobs of every LO task are discarded, and counted; of each task is noted what was discarded of
// it.
fn drop_low(
    sheets: &Sheets,
    waiting: &mut [u8; TASKS],
    runs: &mut [u32; TASKS],
    found: &mut [u8; FOUND_VALUES],
) -> u32
    requires { (sheets.now.ntasks ≤ 64) × (found.old ≡ none_found) }
    ensures { (waiting.new ≡ anew sheets.now.ntasks (kept_of sheets.now) waiting.old)
        × (runs.new ≡ anew sheets.now.ntasks (kept_of sheets.now) runs.old)
        × (result
        ≡ sum_below sheets.now.ntasks (λ k. gone_of sheets.now k (get_or waiting.old k 0)))
        × (found.new
        ≡ noted_of sheets.now.ntasks (λ k. gone_of sheets.now k (get_or waiting.old k 0))) }
{
    let mut count: u32 = 0;
    for k in 0..sheets.ntasks {
        if table::is_low(sheets.level(k)) {
            count += u32::from(waiting[k]);
            found[SERVERS + k] = waiting[k];
            waiting[k] = 0;
            runs[k] = 0;
        }
    }
    count
}

// Step 2, after step 1: how many were discarded. The mode was `before`.
fn discard(sheets: &Sheets, state: &mut State, before: Mode, found: &mut [u8; FOUND_VALUES]) -> u32
    requires { (sheets.now.ntasks ≤ 64) × (found.old ≡ none_found) }
    ensures { Discards sheets.now before state.old state.new found.new result }
{
    if !enters_d2(before, state.mode) {
        return 0;
    }
    drop_low(sheets, &mut state.waiting, &mut state.runs, found)
}

// Whether some job of the first n tasks waits.
fn some_waits(n: usize, waiting: &[u8; TASKS]) -> bool
    requires { n ≤ 64 }
    ensures { result ≡ any_below n (waits_at waiting.now) }
{
    for w in &waiting[..n] {
        if 0 < *w {
            return true;
        }
    }
    false
}

// Step 3. In N there is nothing to ask.
fn settle_mode(sheets: &Sheets, state: &mut State)
    requires { sheets.now.ntasks ≤ 64 }
    ensures { SettlesMode sheets.now state.old state.new }
{
    if state.mode == Mode::N {
        return;
    }
    if !some_waits(sheets.ntasks, &state.waiting) {
        state.mode = Mode::N;
    }
}

// Step 4.
fn refill(sheets: &Sheets, used: &mut [u32; SERVERS], elapsed: &mut [u32; SERVERS])
    requires { sheets.now.nservers ≤ 32 }
    ensures { Refills sheets.now used.old elapsed.old used.new elapsed.new }
{
    for i in 0..sheets.nservers {
        let goes_on = elapsed[i] != sheets.servers[PERIOD + i];
        used[i] = count_if(goes_on, used[i]);
        elapsed[i] = count_if(goes_on, elapsed[i]);
    }
}

// Steps 1 to 4.
pub(crate) fn settle(
    sheets: &Sheets,
    state: &mut State,
    found: &mut [u8; FOUND_VALUES],
    mark: bool,
) -> Settling
    requires { Few sheets.now × RanJob sheets.now state.old.waiting state.old.last
        × (found.old ≡ none_found) }
    ensures { Settles sheets.now mark state.old state.new found.new result }
{
    let before = state.mode;
    let left = mark_job(sheets, state, mark);
    let discarded = discard(sheets, state, before, found);
    settle_mode(sheets, state);
    refill(sheets, &mut state.used, &mut state.elapsed);
    Settling { left, discarded }
}
