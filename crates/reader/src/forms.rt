// What a line says, by the form that its leading word asks for. (01, Tables.) The forms are in
// crate text, specs/Line.antt; here each is a shape of fields (fields.rt) and how many there are at
// least.

ghost use Rattle.std.specs.Prelude.{◌≡◌, ◌≤◌, length, take};
ghost use Rattle.decimal.specs.Lines.{same};
ghost use Rattle.text.specs.declared.Word.TheVariants.{ATick, AServer, ATask};
ghost use Rattle.text.specs.Line.{leading};
ghost use Rattle.reader.specs.Inner.Fields.{kind_at, level_at, last_of};
ghost use Rattle.reader.specs.Inner.Lines.{first_word, read_behind, first_read};

use crate::fields;
use decimal::LINE_FEED;
use table::{ByMode, Kind, Level, THE_LINE};
use text::{Line, ServerLine, TaskLine, Word};
use units::Micros;

// Where the fields begin behind a leading word and its tab.
pub const BEHIND_TICK: usize = 5;

const BEHIND_SERVER: usize = 7;

pub const BEHIND_TASK: usize = 5;

// What a line says, or its leading word, and where the line ends.
#[derive(Clone, Copy)]
pub struct LineRead<S> {
    pub said: S,
    pub end: usize,
}

// Kept: kind_at, level_at: read_fields gave the number, so a TryFrom would never refuse.

fn kind_at(v: u64) -> Kind
    ensures { result ≡ kind_at v }
{
    match v {
        1 => Kind::Timed,
        _ => Kind::Event,
    }
}

fn level_at(v: u64) -> Level
    ensures { result ≡ level_at v }
{
    match v {
        2 => Level::HI,
        1 => Level::MI,
        _ => Level::LO,
    }
}

// Field k, the last of its form, where a line of so many fields goes so far. Its number is v.
// Kept: how many fields were read says whether the last one is there: values holds 0 for none.
fn last_at(count: usize, k: usize, v: u64) -> Option<Micros>
    ensures { result ≡ last_of count k v }
{
    (k <= count).then_some(Micros(v))
}

// Kept: tick_line, server_line, task_line: no `?`: where the line ends is told either way.
// Kept: the two tick_line: each is one read and one match, and the matches give different lines.
// Kept: text, from: a place in the text that is lent, since lines are read from its middle (01).

fn tick_line(text: &[u8], from: usize) -> LineRead<Line>
    requires { from ≤ length text.now }
    ensures { result ≡ read_behind ATick text.now from }
{
    let f = fields::read_fields(text, from, b"n", 1);
    let said = match f.wrong {
        Some(field) => Line::Malformed(Word::ATick, field),
        None => Line::OfTick(Micros(f.values[0])),
    };
    LineRead { said, end: f.end }
}

fn server_line(text: &[u8], from: usize) -> LineRead<Line>
    requires { from ≤ length text.now }
    ensures { result ≡ read_behind AServer text.now from }
{
    let f = fields::read_fields(text, from, b"nknnnnnn", 7);
    let v = f.values;
    let said = match f.wrong {
        Some(field) => Line::Malformed(Word::AServer, field),
        None => Line::OfServer(ServerLine {
            partition: v[0],
            kind: kind_at(v[1]),
            priority: v[2],
            period: Micros(v[3]),
            capacity: ByMode {
                n: Micros(v[4]),
                d1: Micros(v[5]),
                d2: Micros(v[6]),
            },
            phase: last_at(f.count, 8, v[7]),
        }),
    };
    LineRead { said, end: f.end }
}

fn task_line(text: &[u8], from: usize) -> LineRead<Line>
    requires { from ≤ length text.now }
    ensures { result ≡ read_behind ATask text.now from }
{
    let f = fields::read_fields(text, from, b"nnnlnnn", 7);
    let v = f.values;
    let said = match f.wrong {
        Some(field) => Line::Malformed(Word::ATask, field),
        None => Line::OfTask(TaskLine {
            home: v[0],
            degraded: v[1],
            priority: v[2],
            level: level_at(v[3]),
            limit: ByMode {
                n: Micros(v[4]),
                d1: Micros(v[5]),
                d2: Micros(v[6]),
            },
        }),
    };
    LineRead { said, end: f.end }
}

// Kept: is_same in a chain: a match on byte strings leaves a goal open for each byte of a word.
#[tactic(auto, using(crate::proofs::Line::words))]
fn leading_word(w: &[u8]) -> Word
    ensures { result ≡ leading w.now }
{
    if decimal::is_same(w, b"tick") {
        return Word::ATick;
    }
    if decimal::is_same(w, b"server") {
        return Word::AServer;
    }
    if decimal::is_same(w, b"task") {
        return Word::ATask;
    }
    Word::Unknown
}

#[tactic(auto, using(crate::proofs::Line::same_places))]
pub(crate) fn begins(text: &[u8], word: &[u8]) -> bool
    ensures { result ≡ same (take (length word.now) text.now) word.now }
{
    text.starts_with(word)
}

// The leading word of the line at the front of some text.
pub(crate) fn read_word(text: &[u8]) -> LineRead<Word>
    ensures { result ≡ first_word text.now }
{
    let e = decimal::field_end(text, 0).at;
    LineRead {
        said: leading_word(&text[..e]),
        end: decimal::find(text, e, LINE_FEED),
    }
}

// Kept: the two read_line: the words and forms differ, and a table of them would be longer.

// The line at the front of some text. Its leading word, with the tab after it, is compared where it
// stands; the fields are then read as the form of such a line asks. A word alone has no form: a
// field is missing.
pub(crate) fn read_line(text: &[u8]) -> LineRead<Line>
    ensures { result ≡ first_read text.now }
{
    if begins(text, b"server\t") {
        return server_line(text, BEHIND_SERVER);
    }
    if begins(text, b"task\t") {
        return task_line(text, BEHIND_TASK);
    }
    if begins(text, b"tick\t") {
        return tick_line(text, BEHIND_TICK);
    }
    let w = read_word(text);
    LineRead {
        said: Line::Malformed(w.said, THE_LINE),
        end: w.end,
    }
}
