// A line's row: the one place where microseconds become ticks. Each function asks that the line
// keeps the rules, so that every number fits its row.

ghost use Rattle.std.specs.Prelude.{◌≡◌, true, ◌*◌, ◌≤◌, ◌<◌};
ghost use Rattle.laws.specs.Choice.{every};
ghost use Rattle.laws.specs.RoundUp.{up};
ghost use Rattle.table.specs.Rules.{task_keeps};
ghost use Rattle.text.specs.Standing.{in_ticks, phase_said, server_of, rounded_up, limits_of, task_of, server_bounds};
ghost use Rattle.reader.specs.Inner.{FewTicks};

use table::{ByMode, Server, Task};
use text::{ServerLine, TaskLine};
use units::{Micros, Ticks};

// Kept: the bounds of the tick in each contract, for the reason in rules.rt.

// "each rounded up to a tick". A time may be of more ticks than 32 bits hold: its bound is judged
// before, in microseconds (rules::task_bounds), and only what is at most 100,000 ticks is rounded
// up.
#[tactic(auto, using(crate::proofs::RoundUp::up_ceil))]
pub(crate) fn round_up(u: Micros, tick: Micros) -> Ticks
    requires { (0 < tick.0) × (up u.0 tick.0 ≤ 100000) }
    ensures { result ≡ rounded_up tick.0 u }
{
    Ticks(u.0.div_ceil(tick.0) as u32)
}

// "A row without the field has phase 0".
pub(crate) fn phase_said(p: Option<Micros>) -> Micros
    ensures { result ≡ phase_said p }
{
    p.unwrap_or(Micros(0))
}

// "all whole ticks": of a period, or of a capacity or a phase, which is at most the period.
fn in_ticks(u: Micros, tick: Micros) -> Ticks
    requires { (0 < tick.0) × (u.0 ≤ 1000000 * tick.0) }
    ensures { result ≡ in_ticks tick.0 u }
{
    Ticks((u.0 / tick.0) as u32)
}

pub(crate) fn limits(x: ByMode<Micros>, tick: Micros) -> ByMode<Ticks>
    requires { (0 < tick.0) × FewTicks tick.0 x }
    ensures { result ≡ limits_of tick.0 x }
{
    ByMode {
        n: round_up(x.n, tick),
        d1: round_up(x.d1, tick),
        d2: round_up(x.d2, tick),
    }
}

#[tactic(auto, using(crate::proofs::Standing::task_fits))]
pub(crate) fn task_row(tick: Micros, k: TaskLine) -> Task
    requires { (0 < tick.0) × (every (task_keeps (task_of tick.0 k)) ≡ true) × (k.home < 32) × (k.degraded < 32) }
    ensures { result ≡ task_of tick.0 k }
{
    Task {
        home: k.home as u8,
        degraded: k.degraded as u8,
        priority: k.priority as u8,
        level: k.level,
        limit: limits(k.limit, tick),
    }
}

#[tactic(auto, using(crate::proofs::Standing::server_fits))]
pub(crate) fn server_row(rows: usize, tick: Micros, s: ServerLine) -> Server
    requires { (0 < tick.0) × (every (server_bounds rows tick.0 s) ≡ true) }
    ensures { result ≡ server_of tick.0 s }
{
    Server {
        partition: s.partition as u8,
        kind: s.kind,
        priority: s.priority as u8,
        period: in_ticks(s.period, tick),
        capacity: ByMode {
            n: in_ticks(s.capacity.n, tick),
            d1: in_ticks(s.capacity.d1, tick),
            d2: in_ticks(s.capacity.d2, tick),
        },
        phase: in_ticks(phase_said(s.phase), tick),
    }
}
