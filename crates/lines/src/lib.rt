// Event lines and answer lines. (01, One night in full.) Which line says what is in specs/; the code
// stands in crates cutter, bytes to event lines, and printer, what is told to them to bytes. Here is
// only how many lines are taken at once, the same whatever box they are told to.

#![tactic(auto)]

ghost use Rattle.std.specs.Prelude.{◌≡◌, min};
ghost use Rattle.lines.specs.Serving.{lines_at_once};

use table::Refusal;

// The longest event line: a letter, a tab and 11 digits.
pub const LONGEST_EVENT: usize = 13;

// The line of an event file that is not closed yet: its first len bytes, or too long for an event
// line where len is above LONGEST_EVENT.
// Kept: bytes and a length, 14 for too long: a board has no heap; held_of and too_long say so.
#[derive(Clone, Copy)]
pub struct Held {
    pub bytes: [u8; LONGEST_EVENT],
    pub len: usize,
}

// What is handed back for a piece: the line that is not closed yet after it, how many of its bytes
// were taken, and how many lines they closed. (specs/Cutting.antt.)
// Kept: Cut, Printed, Served have counts beside the answer: cut_of, print_of, serve_in say each.
#[derive(Clone, Copy)]
pub struct Cut {
    pub answer: Result<(), Refusal>,
    pub held: Held,
    pub eaten: usize,
    pub many: usize,
}

// No answer line has more bytes.
pub const LONGEST_ANSWER: usize = 140;

// What is handed back for printed answers: how many lines they are, and how many bytes of the lent
// room. (specs/Print.antt.)
#[derive(Clone, Copy)]
pub struct Printed {
    pub answer: Result<(), Refusal>,
    pub many: usize,
    pub put: usize,
}

// What is handed back for a buffer that was served: the run and the line that is not closed yet, after
// it; how many of its bytes were taken, and how many bytes of the lent room are their answers.
#[derive(Clone, Copy)]
pub struct Served<R> {
    pub answer: Result<(), Refusal>,
    pub run: R,
    pub held: Held,
    pub eaten: usize,
    pub put: usize,
}

// So many lines at most are taken at once.
pub const BATCH: usize = 1024;

// The smaller of two numbers.
pub fn smaller_of(a: usize, b: usize) -> usize
    ensures { result ≡ min a b }
{
    a.min(b)
}

// How many lines a room surely holds the answers of, at most a batch.
#[tactic(auto, unfolding(crate::specs::Print::longest_answer, crate::specs::Serving::batch))]
pub fn lines_at_once(room: usize) -> usize
    ensures { result ≡ lines_at_once room }
{
    (room / LONGEST_ANSWER).min(BATCH)
}
