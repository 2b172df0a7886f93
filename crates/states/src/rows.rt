// What the lines of a table block and of a frame block have in common: rows, and the first numbers
// of a state.

ghost use Rattle.std.specs.Prelude.{◌≡◌, ◌+◌, replicate, set, ltb, is_ok, OnOk};

use crate::line::{Broken, Fields};
use units::Ticks;

// The rows of one kind: lines fill them "from row 0 on". "A row in use that is not given is all 0."
// Kept: an array, and how many of its rows are given: there is no heap.
#[derive(Clone, Copy)]
pub struct Rows<T, const N: usize> {
    pub all: [T; N],
    given: usize,
}

impl<T: Copy, const N: usize> Rows<T, N> {
    pub(crate) fn new(none: T) -> Rows<T, N>
        ensures { result ≡ record { all = replicate N none; given = 0 } }
    {
        Rows {
            all: [none; N],
            given: 0,
        }
    }

    // "at most 32, 64, 32 and 64 of them"
    pub(crate) fn push(&mut self, row: T) -> Result<(), Broken>
        ensures room { is_ok result ≡ ltb self.old.given N }
        ensures next { OnOk result (self.new ≡
            record { all = set self.old.all self.old.given row; given = self.old.given + 1 }) }
    {
        if N <= self.given {
            return Err(Broken);
        }
        self.all[self.given] = row;
        self.given += 1;
        Ok(())
    }
}

// "waiting, run count of the front job"
#[derive(Clone, Copy, Default)]
pub struct Queue {
    pub waiting: u8,
    pub runs: u32,
}

// "ticks taken, releases accepted, any last-run task (0 or 1), its row"
#[derive(Clone, Copy)]
pub struct Head {
    pub ticks: Ticks,
    pub accepted: u32,
    pub last: Option<usize>,
}

impl Head {
    // "Without a `state` line all its numbers are 0."
    pub const NONE: Head = Head {
        ticks: Ticks(0),
        accepted: 0,
        last: None,
    };

    // "the row after the 0 is not looked at"
    pub(crate) fn of(fields: &mut Fields) -> Result<Head, Broken> {
        let ticks = fields.ticks()?;
        let accepted = fields.number()?;
        let any = fields.flag()?;
        let row = fields.row()?;
        Ok(Head {
            ticks,
            accepted,
            last: any.then_some(row),
        })
    }
}
