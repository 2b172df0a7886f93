// A server that delays a row in a mode, and what it asks of r ticks. (01, Verdicts.)

ghost use Rattle.std.specs.Prelude.{◌≡◌, ◌≤◌};

use table::Kind;

// Its period and its capacity in the mode, and `late`, its late-then-early term. A climb may take a
// million steps, so these are worked out once.
#[derive(Clone, Copy)]
pub struct Delayer {
    pub period: u32,
    pub capacity: u32,
    pub late: u32,
    ghost period_low: { 1 ≤ period },
    ghost period_high: { period ≤ 1000000 },
    ghost capacity_high: { capacity ≤ period },
    ghost late_high: { late ≤ period },
}

impl Delayer {
    ghost use Rattle.verdict.specs.Inner.{late_of, Delays, asked_by};

    pub(crate) fn new(kind: Kind, period: u32, capacity: u32) -> Self
        requires { (1 ≤ period) × (period ≤ 1000000) × (capacity ≤ period) }
        ensures { Delays kind period capacity result }
    {
        // "the deferrable server's late-then-early term T - C": an event server may be charged late
        // in one period and early in the next; a timed one may not.
        let late = match kind {
            Kind::Timed => 0,
            Kind::Event => period - capacity,
        };
        Delayer {
            period,
            capacity,
            late,
        }
    }

    // "the round-up of (R + Tj - Cj)/Tj times Cj"
    // Kept: the round-up as a sum and a quotient; div_ceil made a long climb slower by 1 in 10.
    #[tactic(auto, unfolding(laws::specs::RoundUp::up))]
    pub(crate) fn asks(&self, r: u32) -> u32
        requires { r ≤ 1000000 }
        ensures { result ≡ asked_by self.now r }
    {
        (r + self.late + (self.period - 1)) / self.period * self.capacity
    }
}
