// Events, and what is answered to them: the same for every box, whatever it holds. (01, What one
// tick does; One night in full.)

#![tactic(auto)]

ghost use Rattle.std.specs.Prelude.{◌≡◌, ◌+◌, ◌≤◌, length};
ghost use Rattle.std.proofs.Math.Seq.{paste};
ghost use Rattle.events.specs.Values.{line_said, told_of, turn_values, left_values, told_values, told_put};

use table::{Mode, Refusal};
use units::Ticks;

// What a taken tick says.
#[derive(Clone, Copy)]
pub enum Turn {
    Run { server: usize, task: usize },
    Empty { server: usize },
    Idle,
}

// The job that left, by its task, and how.
// Kept: the three cases of the answer line; Option<(usize, bool)> would name neither done nor cut.
#[derive(Clone, Copy)]
pub enum Left {
    Nobody,
    Done(usize),
    Cut(usize),
}

// What goes with a taken tick: its number, the mode that step 5 found, and how many jobs step 2
// discarded.
#[derive(Clone, Copy)]
pub struct TickAnswer {
    pub tick: Ticks,
    pub mode: Mode,
    pub turn: Turn,
    pub left: Left,
    pub discarded: u32,
}

#[derive(Clone, Copy)]
pub enum Event {
    Release(usize),
    Tick(bool),
}

// What is answered to an event.
// Kept: three cases, each told on a line of its own; as a Result they would be two enums.
#[derive(Clone, Copy)]
pub enum Answer {
    Released(usize),
    Ticked(TickAnswer),
    No(Refusal),
}

// What is handed back for a start, with the run of whatever box it is.
// Kept: Begun, Answered, Many: the run comes back beside a refusal too, as it was (01).
#[derive(Clone, Copy)]
pub struct Begun<R> {
    pub answer: Result<(), Refusal>,
    pub run: R,
}

// What is handed back for an event: the answer, and the run after it.
#[derive(Clone, Copy)]
pub struct Answered<R> {
    pub answer: Answer,
    pub run: R,
}

// What is handed back for many event lines: that they were taken, or why none of them was, and the
// run after them.
#[derive(Clone, Copy)]
pub struct Many<R> {
    pub answer: Result<(), Refusal>,
    pub run: R,
}

// What an answer tells: the paper's number for no, or the answer itself.
// Kept: Told is public, and any number may stand for no, not only a Refusal's (told_said).
#[derive(Clone, Copy)]
pub enum Told {
    No(u64),
    Released(usize),
    Ticked(TickAnswer),
}

// Event lines and what is told to them, as plain numbers, so that many can be lent at once: so many
// numbers each. Which they are is in specs/Values.antt.
// Kept: lent rooms hold plain numbers, two a line and nine an answer (docs/DECISIONS.md, Ours).
pub const LINE_VALUES: usize = 2;

pub const TOLD_VALUES: usize = 9;

// Where they stand, of a tick that is taken: its mode, what it says and of which server, how a job
// left and of which task, and how many were discarded.
pub const TOLD_MODE: usize = 2;

pub const TOLD_WHAT: usize = 3;

pub const TOLD_SERVER: usize = 4;

pub const TOLD_HOW: usize = 6;

pub const TOLD_TASK: usize = 7;

pub const TOLD_DISCARDED: usize = 8;

// What an event line says by its two numbers: its event, or none where it is another line.
pub fn line_said(x: u64, v: u64) -> Option<Event>
    ensures { result ≡ line_said x v }
{
    match x {
        0 => None,
        1 => Some(Event::Tick(v != 0)),
        _ => Some(Event::Release(v as usize)),
    }
}

// What an answer tells.
// Kept: told_of, line_said and told_values are promised by these names.
pub fn told_of(a: Answer) -> Told
    ensures { result ≡ told_of a }
{
    match a {
        Answer::Released(k) => Told::Released(k),
        Answer::Ticked(t) => Told::Ticked(t),
        Answer::No(why) => Told::No(table::number_of(why)),
    }
}

fn turn_values(turn: Turn) -> [u64; 3]
    ensures { result ≡ turn_values turn }
{
    match turn {
        Turn::Idle => [0, 0, 0],
        Turn::Empty { server } => [1, server as u64, 0],
        Turn::Run { server, task } => [2, server as u64, task as u64],
    }
}

fn left_values(left: Left) -> [u64; 2]
    ensures { result ≡ left_values left }
{
    match left {
        Left::Nobody => [0, 0],
        Left::Done(k) => [1, k as u64],
        Left::Cut(k) => [2, k as u64],
    }
}

// What is told, as nine numbers.
#[tactic(auto, unfolding(crate::specs::Values::told_values))]
pub fn told_values(x: Told) -> [u64; TOLD_VALUES]
    ensures { result ≡ told_values x }
{
    match x {
        Told::No(number) => [0, number, 0, 0, 0, 0, 0, 0, 0],
        Told::Released(k) => [1, k as u64, 0, 0, 0, 0, 0, 0, 0],
        Told::Ticked(a) => {
            let mode = table::mode_value(a.mode);
            let [what, server, task] = turn_values(a.turn);
            let [how, of] = left_values(a.left);
            [
                2,
                a.tick.0 as u64,
                mode,
                what,
                server,
                task,
                how,
                of,
                a.discarded as u64,
            ]
        }
    }
}

// The nine numbers of what is told, written into the room from place `at` on, where it has that
// many places there; else the room stays as it was.
// Kept: put_told is public (docs/FUNCTIONS.md): the room and the place stay two parameters.
pub fn put_told(x: Told, room: &mut [u64], at: usize)
    ensures { room.new ≡ told_put room.old at x }
{
    if TOLD_VALUES <= room.len() && at <= room.len() - TOLD_VALUES {
        room[at..at + TOLD_VALUES].copy_from_slice(&told_values(x));
    }
}
