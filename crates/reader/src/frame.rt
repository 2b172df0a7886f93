// The reader of a frame box's table text. (02, No. 6; 01, Tables and Numbers for no.) Which answer
// is right is in crate frametable, specs/Text.antt. Fields, words, rounding up and the `tick` line
// are judged as in document 01's tables.

ghost use Rattle.std.specs.Prelude.{◌≡◌, true, ◌≤◌, ◌<◌, length};
ghost use Rattle.laws.specs.Choice.{every};
ghost use Rattle.laws.specs.Search.{first_failed};
ghost use Rattle.table.specs.Rules.{tick_keeps};
ghost use Rattle.text.specs.declared.Word.TheVariants.{ATick, ATask};
ghost use Rattle.text.specs.TableText.{handed};
ghost use Rattle.frametable.specs.Rows.{frame_rows_of};
ghost use Rattle.frametable.specs.Rules.{frame_task_keeps};
ghost use Rattle.frametable.specs.Line.{frame_word_of};
ghost use Rattle.frametable.specs.Text.{frame_task_of, frame_placed, frame_task_bounds, frame_ended, frame_read, frame_shown};
ghost use Rattle.reader.specs.Inner.Frame.{FrameAbove, frame_behind, first_frame_read, frame_task_standing, frame_standing_by};

use crate::forms::LineRead;
use crate::{FromText, fields, forms, rows, rules};
use frametable::{FrameLine, FrameTable, FrameTask, FrameTaskLine};
use table::{Fault, Refusal, TASKS, THE_LINE};
use text::{LONGEST_TEXT, ReadError, Word};
use units::Micros;

// Kept: tick_line, task_line, read_line: as in forms.rt.

fn tick_line(text: &[u8], from: usize) -> LineRead<FrameLine>
    requires { from ≤ length text.now }
    ensures { result ≡ frame_behind ATick text.now from }
{
    let f = fields::read_fields(text, from, b"n", 1);
    let said = match f.wrong {
        Some(field) => FrameLine::Malformed(Word::ATick, field),
        None => FrameLine::OfTick(Micros(f.values[0])),
    };
    LineRead { said, end: f.end }
}

fn task_line(text: &[u8], from: usize) -> LineRead<FrameLine>
    requires { from ≤ length text.now }
    ensures { result ≡ frame_behind ATask text.now from }
{
    let f = fields::read_fields(text, from, b"nnn", 3);
    let said = match f.wrong {
        Some(field) => FrameLine::Malformed(Word::ATask, field),
        None => FrameLine::OfTask(FrameTaskLine {
            partition: f.values[0],
            priority: f.values[1],
            limit: Micros(f.values[2]),
        }),
    };
    LineRead { said, end: f.end }
}

// The line at the front of some text. A `server` line has no form here, nor has a word alone.
fn read_line(text: &[u8]) -> LineRead<FrameLine>
    ensures { result ≡ first_frame_read text.now }
{
    if forms::begins(text, b"task\t") {
        return task_line(text, forms::BEHIND_TASK);
    }
    if forms::begins(text, b"tick\t") {
        return tick_line(text, forms::BEHIND_TICK);
    }
    let w = forms::read_word(text);
    LineRead {
        said: FrameLine::Malformed(w.said, THE_LINE),
        end: w.end,
    }
}

// Kept: tick, tasks: as in rules.rt, whose reasons hold here.

// A limit is rounded up and then 1 to 100,000 ticks exactly if it is 1 microsecond to 100,000
// ticks.
fn task_bounds(rows: usize, tick: Micros, k: FrameTaskLine) -> Option<usize>
    requires { (0 < tick.0) × (tick.0 ≤ 10000) }
    ensures { result ≡ first_failed (frame_task_bounds rows tick.0 k) }
{
    let partition = laws::is_within(0, 2, k.partition);
    let priority = laws::is_within(1, 255, k.priority);
    let most = 100000 * tick.0;
    let limit = laws::is_within(1, most, k.limit.0);
    laws::first_failed(&[rows < TASKS, partition, priority, limit])
}

#[tactic(auto, unfolding(frametable::specs::Text::frame_placed))]
fn is_placed(n: usize, word: Word) -> bool
    ensures { result ≡ frame_placed n word }
{
    match word {
        Word::ATick => n == 1,
        Word::AServer => false,
        Word::ATask => 1 < n,
        Word::Unknown => false,
    }
}

// Kept: a From would stand in crate frametable, away from is_placed, for which alone it is asked.
fn word_of(l: FrameLine) -> Word
    ensures { result ≡ frame_word_of l }
{
    match l {
        FrameLine::OfTick(_) => Word::ATick,
        FrameLine::OfTask(_) => Word::ATask,
        FrameLine::Malformed(word, _) => word,
    }
}

// A task's line, in its place.
fn task_standing(tick: Micros, tasks: usize, k: FrameTaskLine) -> Result<(), Fault>
    requires { tick_keeps tick.0 ≡ true }
    ensures { result ≡ frame_task_standing tick.0 tasks k }
{
    rules::told(Refusal::OutOfBounds, task_bounds(tasks, tick, k))
}

// n is the line's number. Of the rows above it these are the tick and how many there are.
fn line_standing(n: usize, tick: Micros, tasks: usize, l: FrameLine) -> Result<(), Fault>
    requires { 1 < n → tick_keeps tick.0 ≡ true }
    ensures { result ≡ frame_standing_by n tick.0 tasks l }
{
    if !is_placed(n, word_of(l)) {
        return Err(Fault {
            why: Refusal::Malformed,
            field: THE_LINE,
        });
    }
    match l {
        FrameLine::OfTick(u) => rules::tick_standing(u),
        FrameLine::OfTask(k) => task_standing(tick, tasks, k),
        FrameLine::Malformed(_, field) => Err(Fault {
            why: Refusal::Malformed,
            field,
        }),
    }
}

// A line's row. The line keeps the rules, so that every number fits.
#[tactic(auto, using(crate::proofs::FrameText::frame_task_fits))]
fn task_row(tick: Micros, k: FrameTaskLine) -> FrameTask
    requires { (0 < tick.0) × (every (frame_task_keeps (frame_task_of tick.0 k)) ≡ true) }
    ensures { result ≡ frame_task_of tick.0 k }
{
    FrameTask {
        partition: k.partition as u8,
        priority: k.priority as u8,
        limit: rows::round_up(k.limit, tick),
    }
}

// The text ends before line n, t holding its rows. Row 0 stands on line 2.
// Kept: the two end: a frame's text has one kind of rows, with no servers above them.
fn end(n: usize, t: FrameTable) -> Result<FrameTable, ReadError>
    requires { FrameAbove n t }
    ensures { result ≡ handed (frame_shown (frame_ended n (frame_rows_of t))) }
{
    if t.ntasks == 0 {
        return Err(ReadError::Refused {
            why: Refusal::Malformed,
            line: n,
            field: THE_LINE,
        });
    }
    if let Some((i, j)) = frametable::equal_frame_tasks(t.tasks, t.ntasks) {
        return Err(ReadError::Equal {
            first: 2 + i,
            second: 2 + j,
        });
    }
    Ok(t)
}

// Kept: at, n by hand, and no one walk with read_table: as lib.rt says of both.

// What a text says: its table, or why it is none. Line n begins at `at`, and the text is lent from
// there on; the walk that reads the line finds where it ends, and its row is put behind those in
// use.
pub fn read_frame(text: &[u8]) -> Result<FrameTable, ReadError>
    ensures { result ≡ handed (frame_shown (frame_read text.now)) }
{
    if LONGEST_TEXT < text.len() {
        return Err(ReadError::Refused {
            why: Refusal::OutOfBounds,
            line: 0,
            field: THE_LINE,
        });
    }
    let mut t = frametable::no_frame_table();
    let mut at = 0;
    let mut n = 1;
    loop {
        if at == text.len() {
            return end(n, t);
        }
        let r = read_line(&text[at..]);
        let e = at + r.end;
        if e == text.len() {
            return Err(ReadError::Refused {
                why: Refusal::Malformed,
                line: n,
                field: THE_LINE,
            });
        }
        if let Err(fault) = line_standing(n, t.tick, t.ntasks, r.said) {
            return Err(ReadError::Refused {
                why: fault.why,
                line: n,
                field: fault.field,
            });
        }
        match r.said {
            FrameLine::OfTick(u) => {
                t.tick = u;
            }
            FrameLine::OfTask(k) => {
                t.tasks[t.ntasks] = task_row(t.tick, k);
                t.ntasks += 1;
            }
            FrameLine::Malformed(_, _) => {}
        }
        at = e + 1;
        n += 1;
    }
}

impl FromText for FrameTable {
    ghost read_of = { λ text. handed (frame_shown (frame_read text)) };

    fn from_text(text: &[u8]) -> Result<Self, ReadError> {
        read_frame(text)
    }
}
