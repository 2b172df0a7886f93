// How fast a server answers in a mode (01, Verdicts), and whether a table fits (02, No. 5).

#![tactic(auto)]

ghost use Rattle.std.specs.Prelude.{◌≡◌, true, ◌≤◌, ◌<◌, length};
ghost use Rattle.laws.specs.Search.{least};
ghost use Rattle.table.specs.Rules.{table_keeps};
ghost use Rattle.table.specs.Inner.{Sized};
ghost use Rattle.verdict.specs.Inner.{interference_in, meets_in, Delaying};
ghost use Rattle.verdict.specs.Verdict.{response_at, verdict_of};
ghost use Rattle.verdict.specs.Fits.{row_verdicts, verdicts_of, no_verdicts, least_row, fits_of};

mod delayer;

use delayer::Delayer;
use std::array;
use table::{ByMode, Kind, Mode, Refusal, SERVERS, Table};
use units::Ticks;

// The least response, "misses", or a refusal.
// Kept: an enum of the three cases that 01 names for a verdict; Option in a Result says less.
#[derive(Clone, Copy)]
pub enum Verdict {
    Response(Ticks),
    Misses,
    No(Refusal),
}

// Whether a table fits: yes, the least miss, or a refusal. (02, No. 5.)
// Kept: an enum of the three cases that 02 names; Option in a Result says less.
#[derive(Clone, Copy)]
pub enum Fits {
    Yes,
    Miss { mode: Mode, row: usize },
    No(Refusal),
}

// The servers that delay a row in a mode, those of higher priority that have capacity: the first
// count.
// Kept: an array with a count of it, since there is no heap for a Vec.
#[derive(Clone, Copy)]
struct Higher {
    count: usize,
    delayers: [Delayer; SERVERS],
}

// A server row of a table that keeps the rules: 13 and 11 are behind it. (Sized: its arrays have
// their lengths, as every table's have that code holds.)
#[derive(Clone, Copy)]
struct Row<'a> {
    table: &'a Table,
    row: usize,
    ghost sized: { Sized table.now },
    ghost keeps: { table_keeps table.now ≡ true },
    ghost there: { row < table.now.nservers },
}

impl Row<'_> {
    // The servers that delay the row in a mode.
    #[tactic(auto, using(table::proofs::Rules::few_servers))]
    fn higher(&self, m: Mode) -> Higher
        ensures { Delaying self.now.table.now m self.now.row result }
    {
        // What asks for nothing stands past the count.
        let mut delayers = [Delayer::new(Kind::Timed, 1, 0); SERVERS];
        let mut count = 0;
        let priority = self.table.servers[self.row].priority;
        for s in &self.table.servers[..self.table.nservers] {
            let capacity = table::in_mode(s.capacity, m).0;
            if s.priority <= priority || capacity == 0 {
                continue;
            }
            delayers[count] = Delayer::new(s.kind, s.period.0, capacity);
            count += 1;
        }
        Higher { count, delayers }
    }

    // The response of the row's server in a mode.
    #[tactic(auto, using(table::proofs::Rules::few_servers))]
    fn response(&self, m: Mode) -> Option<u32>
        ensures { result ≡ response_at self.now.table.now m self.now.row }
    {
        let s = &self.table.servers[self.row];
        let capacity = table::in_mode(s.capacity, m).0;
        if capacity == 0 {
            return Some(0);
        }
        let h = self.higher(m);
        climb(&h.delayers[..h.count], capacity, s.period.0)
    }

    #[tactic(auto, using(crate::proofs::Verdicts::verdict_told))]
    fn verdict(&self, m: Mode) -> Verdict
        ensures { result ≡ verdict_of self.now.table.now self.now.row m }
    {
        match self.response(m) {
            Some(r) => Verdict::Response(Ticks(r)),
            None => Verdict::Misses,
        }
    }

    fn verdicts(&self) -> ByMode<Verdict>
        ensures { result ≡ row_verdicts self.now.table.now self.now.row }
    {
        ByMode {
            n: self.verdict(Mode::N),
            d1: self.verdict(Mode::D1),
            d2: self.verdict(Mode::D2),
        }
    }
}

// I(r): what these servers ask of r ticks.
fn interference_in(higher: &[Delayer], r: u32) -> u32
    requires { (length higher.now ≤ 32) × (r ≤ 1000000) }
    ensures { result ≡ interference_in higher.now r }
{
    let mut sum = 0;
    for d in higher {
        sum += d.asks(r);
    }
    sum
}

// The least r from 1 to the period that meets the inequality. I never falls as r grows, so what is
// below C + I(r) misses where r does: the next number to try is C + I(r) itself.
fn climb(higher: &[Delayer], capacity: u32, period: u32) -> Option<u32>
    requires { (length higher.now ≤ 32) × (capacity ≤ period) × (period ≤ 1000000) }
    ensures { result ≡ least (meets_in higher.now capacity) 1 period }
{
    let mut r = 1;
    while r <= period {
        let next = capacity + interference_in(higher, r);
        if next <= r {
            return Some(r);
        }
        r = next;
    }
    None
}

// The verdict for a server row in a mode: 13 first, then 11.
#[tactic(auto, unfolding(crate::specs::Verdict::verdict_of))]
pub fn verdict_of(t: Table, row: usize, mode: Mode) -> Verdict
    ensures { result ≡ verdict_of t row mode }
{
    if !table::table_keeps(t) {
        return Verdict::No(Refusal::Unsound);
    }
    if t.nservers <= row {
        return Verdict::No(Refusal::NoServer);
    }
    Row { table: &t, row }.verdict(mode)
}

// What stands in the place of a row that has no verdicts.
// Kept: theorem outcomes.verdicts_of_settled holds the 32 rows, the refused ones among them.
fn refused(why: Refusal) -> ByMode<Verdict>
    ensures { result ≡ no_verdicts why }
{
    let no = Verdict::No(why);
    ByMode {
        n: no,
        d1: no,
        d2: no,
    }
}

// The verdicts of a row of a table that keeps the rules: 11 where there is none.
#[tactic(auto, using(crate::proofs::Fitting::absent_row))]
fn verdicts_at(t: &Table, row: usize) -> ByMode<Verdict>
    requires { Sized t.now × (table_keeps t.now ≡ true) }
    ensures { result ≡ row_verdicts t.now row }
{
    if t.nservers <= row {
        return refused(Refusal::NoServer);
    }
    Row { table: t, row }.verdicts()
}

// All verdicts of a table: 13 is asked once for all of them.
pub fn verdicts_of(t: Table) -> [ByMode<Verdict>; SERVERS]
    ensures { result ≡ verdicts_of t }
{
    if !table::table_keeps(t) {
        return [refused(Refusal::Unsound); SERVERS];
    }
    array::from_fn(|row| verdicts_at(&t, row))
}

// The least row that misses in a mode; none after it is looked at.
// Kept: a loop over the rows' numbers, since a Row is what is asked, and nothing here is indexed.
fn least_row(t: &Table, m: Mode) -> Option<usize>
    requires { Sized t.now × (table_keeps t.now ≡ true) }
    ensures { result ≡ least_row (verdicts_of t.now) m }
{
    for row in 0..t.nservers {
        if (Row { table: t, row }).response(m).is_none() {
            return Some(row);
        }
    }
    None
}

// Whether a table fits: nothing is worked out past the first miss.
pub fn fits_of(t: Table) -> Fits
    ensures { result ≡ fits_of t }
{
    if !table::table_keeps(t) {
        return Fits::No(Refusal::Unsound);
    }
    for mode in [Mode::N, Mode::D1, Mode::D2] {
        if let Some(row) = least_row(&t, mode) {
            return Fits::Miss { mode, row };
        }
    }
    Fits::Yes
}
