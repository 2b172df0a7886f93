// The numbers of the morning report, counted one taken tick after the other from what the scheduler
// hands out of it: what is told (crate events' specs/Values.antt) and what steps 5 and 2 found
// (crate run's specs/Found.antt).

ghost use Rattle.std.specs.Prelude.{◌≡◌, not, true, ℕ, ◌+◌, ◌≤◌, ◌<◌, eqb, length, get_or};
ghost use Rattle.report.specs.Inner.Count.{turn_counted, left_counted, uncharged, row_after, RowsCounted};
ghost use Rattle.report.specs.Inner.Count.{DiscardsCounted, SomeTick, CountedTick, SomeTicks, CountedAfter};
ghost use Rattle.report.specs.Inner.Count.{no_counts};

use events::TOLD_VALUES;
use run::FOUND_VALUES;
use table::{MODES, SERVERS, TASKS};

// All numbers, by row. Of a server: the ticks charged, the empty turns, the ticks of the row that
// is not over in which it had a waiting job and was not charged, and the longest such row. Of a
// task: the jobs finished, cut and discarded. Of a mode: its ticks. Servers' numbers fit 32 bits, as
// the count of taken ticks does, and are counted at every tick; the others have 64.
// Kept: columns, as 01's run state has; with rows of structs count_rows took 3 times the steps.
#[derive(Clone, Copy, Default)]
pub(crate) struct Counts {
    pub charged: [u32; SERVERS],
    pub empty: [u32; SERVERS],
    pub row: [u32; SERVERS],
    pub longest: [u32; SERVERS],
    pub finished: [u64; TASKS],
    pub cut: [u64; TASKS],
    pub discarded: [u64; TASKS],
    pub modes: [u64; MODES],
}

// Nothing is counted yet.
pub(crate) fn no_counts() -> Counts
    ensures { result ≡ no_counts }
{
    Counts::default()
}

// The row of a server that is not charged, one tick on: it goes on where a job waits.
fn row_after(waits: u8, row: u32) -> u32
    requires { row < 4294967295 }
    ensures { result ≡ row_after waits row }
{
    if waits == 0 { 0 } else { row + 1 }
}

// The rows of the servers in use. What is found of a server is 0 where it has no waiting job; that
// of the server charged was made 0 before.
// Kept: that found has 96 numbers is a clause: a part of a room, lent on to be written, is a slice.
// Kept: rows by index, also in count_discards: what a loop over iter_mut writes, no proof sees.
fn count_rows(nservers: usize, found: &[u8], counts: &mut Counts)
    requires { (nservers ≤ 32) × (length found.now ≡ 96)
        × ((i : ℕ) → i < nservers → get_or counts.old.row i 0 < 4294967295) }
    ensures { RowsCounted nservers found.now counts.old counts.new }
{
    for i in 0..nservers {
        let row = row_after(found[i], counts.row[i]);
        counts.row[i] = row;
        counts.longest[i] = counts.longest[i].max(row);
    }
}

// What the tick says, 0 idle, 1 empty or 2 run, is counted. What was found of the server charged is
// made 0, so that its row ends.
// Kept: here, in count_left and in count_tick a kind is its number, as it is told (docs/SPEED.md).
fn count_turn(what: u64, server: usize, found: &mut [u8], counts: &mut Counts)
    requires { (server < 32) × (length found.old ≡ 96)
        × (not (eqb what 0) ≡ true → get_or counts.old.charged server 0 < 4294967295)
        × (eqb what 1 ≡ true → get_or counts.old.empty server 0 < 4294967295) }
    ensures { (found.new ≡ uncharged what server found.old)
        × (counts.new ≡ turn_counted what server counts.old) }
{
    found[server] = if what != 0 { 0 } else { found[server] };
    counts.charged[server] += u32::from(what != 0);
    counts.empty[server] += u32::from(what == 1);
}

// How the job left: 1 finished, 2 cut.
fn count_left(how: u64, task: usize, counts: &mut Counts)
    requires { (task < 64)
        × (eqb how 1 ≡ true → get_or counts.old.finished task 0 < 18446744073709551615)
        × (eqb how 2 ≡ true → get_or counts.old.cut task 0 < 18446744073709551615) }
    ensures { counts.new ≡ left_counted how task counts.old }
{
    counts.finished[task] += u64::from(how == 1);
    counts.cut[task] += u64::from(how == 2);
}

// What step 2 discarded of the tasks in use.
fn count_discards(ntasks: usize, found: &[u8], counts: &mut Counts)
    requires { (ntasks ≤ 64) × (length found.now ≡ 96)
        × ((k : ℕ) → k < ntasks → get_or counts.old.discarded k 0 + 255 < 18446744073709551616) }
    ensures { DiscardsCounted ntasks found.now counts.old counts.new }
{
    for k in 0..ntasks {
        counts.discarded[k] += u64::from(found[SERVERS + k]);
    }
}

// A taken tick.
fn count_tick(
    nservers: usize,
    ntasks: usize,
    told: &[u64; TOLD_VALUES],
    found: &mut [u8],
    counts: &mut Counts,
)
    requires { SomeTick nservers ntasks told.now found.old counts.old }
    ensures { CountedTick nservers ntasks told.now found.old counts.old counts.new }
{
    let [_, _, mode, what, server, _, how, task, discarded] = *told;
    counts.modes[mode as usize] += 1;
    count_turn(what, server as usize, found, counts);
    count_rows(nservers, found, counts);
    count_left(how, task as usize, counts);
    if 0 < discarded {
        count_discards(ntasks, found, counts);
    }
}

// n taken ticks, one after the other.
// Kept: found is lent part by part: what a loop over chunks_mut writes, no proof sees.
pub(crate) fn count_ticks(
    nservers: usize,
    ntasks: usize,
    n: usize,
    told: &[u64],
    found: &mut [u8],
    counts: &mut Counts,
)
    requires { SomeTicks nservers ntasks n told.now found.old counts.old }
    ensures { CountedAfter nservers ntasks n told.now found.old counts.old counts.new }
{
    let (told, _) = told.as_chunks::<TOLD_VALUES>();
    for (i, told) in told[..n].iter().enumerate() {
        let at = FOUND_VALUES * i;
        count_tick(
            nservers,
            ntasks,
            told,
            &mut found[at..at + FOUND_VALUES],
            counts,
        );
    }
}
