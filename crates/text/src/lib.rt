// Table text: what a line says, and the answers of the reader and the writer. (01, Tables and
// Numbers for no.) Which answer is right is in specs/: Line.antt, Standing.antt, Read.antt,
// Write.antt. The code is in the crates reader and writer.

#![tactic(auto)]

use table::{ByMode, Kind, Level, Refusal};
use units::Micros;

// "The text is at most 16,384 bytes".
pub const LONGEST_TEXT: usize = 16384;

// The phase is the last field, which may be absent.
#[derive(Clone, Copy)]
pub struct ServerLine {
    pub partition: u64,
    pub kind: Kind,
    pub priority: u64,
    pub period: Micros,
    pub capacity: ByMode<Micros>,
    pub phase: Option<Micros>,
}

#[derive(Clone, Copy)]
pub struct TaskLine {
    pub home: u64,
    pub degraded: u64,
    pub priority: u64,
    pub level: Level,
    pub limit: ByMode<Micros>,
}

// The leading word of a line: which kind of line it begins, or none.
// Kept: an unknown word is judged like the others (is_placed): an Option would be opened twice.
#[derive(Clone, Copy)]
pub enum Word {
    ATick,
    AServer,
    ATask,
    Unknown,
}

// What a line says, nothing of it judged but its form: a malformed one has its leading word and the
// first field that is wrong, from 1, or 0 for an unknown word or a wrong count of fields.
// Kept: a malformed line is judged by its place first, by its word; a frame box has other lines.
#[derive(Clone, Copy)]
pub enum Line {
    OfTick(Micros),
    OfServer(ServerLine),
    OfTask(TaskLine),
    Malformed(Word, usize),
}

// Why a text is no table. Lines count from 1, and 0 is the text itself; fields count from 1 after the
// leading word, and 0 is the line itself.
// Kept: 0 for the text or for the line itself: 02, No. 2, has it so (README.md).
#[derive(Clone, Copy)]
pub enum ReadError {
    Refused {
        why: Refusal,
        line: usize,
        field: usize,
    },
    Equal {
        first: usize,
        second: usize,
    },
}
