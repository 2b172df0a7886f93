// What plain numbers say of a tick: what it says, and how a job left. (Rattle.events.specs.Values.)

ghost use Rattle.std.specs.Prelude.{◌≡◌};
ghost use Rattle.events.specs.Values.{turn_said, left_said};

use events::{Left, Turn};

// Kept: numbers for kinds here: so many are lent at once (events: told_values), and any say one.
pub(crate) fn turn_said(what: u64, server: u64, task: u64) -> Turn
    ensures { result ≡ turn_said what server task }
{
    let server = server as usize;
    let task = task as usize;
    match what {
        0 => Turn::Idle,
        1 => Turn::Empty { server },
        _ => Turn::Run { server, task },
    }
}

pub(crate) fn left_said(how: u64, task: u64) -> Left
    ensures { result ≡ left_said how task }
{
    let task = task as usize;
    match how {
        0 => Left::Nobody,
        1 => Left::Done(task),
        _ => Left::Cut(task),
    }
}
