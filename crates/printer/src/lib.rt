// Answers to bytes: what is told to event lines, printed into a lent room. The inner functions ask
// for room and then store without asking; those that store fields begin each with a tab.

#![tactic(auto)]

mod said;

ghost use Rattle.std.specs.Prelude.{◌≡◌, [], ◌∷◌, ◌+◌, ◌≤◌, length};
ghost use Rattle.decimal.specs.Number.{digits};
ghost use Rattle.decimal.specs.Room.{Put};
ghost use Rattle.lines.specs.Words.{dash, mode_word};
ghost use Rattle.events.specs.Values.{told_at};
ghost use Rattle.lines.specs.AnswerLine.{turn_fields, left_fields, outcome, answer_fields};
ghost use Rattle.lines.specs.AnswerLine.{another_fields, refused_fields, closed_line};
ghost use Rattle.lines.specs.Print.{first_line, print_of};
ghost use Rattle.printer.specs.Inner.{stored, fields_stored, rest_stored, line_stored, Stores};
ghost use Rattle.printer.specs.Inner.{number_field, turn_bytes, left_bytes, outcome_bytes};
ghost use Rattle.printer.specs.Inner.{line_bytes, refused_bytes};

use decimal::put::{MOST_DIGITS, put_all, spell};
use events::{Event, LINE_VALUES, Left, TOLD_VALUES, Turn};
use lines::{LONGEST_ANSWER, Printed};
use table::{Mode, Refusal, number_of};
use text::ReadError;

// Kept: store_ functions take (room, at), as Put does, and no write!: no heap, and room is there.
fn store_all(text: &[u8], room: &mut [u8], at: usize) -> usize
    requires { at + length text.now ≤ length room.old }
    ensures { Stores (stored text.now) (length text.now)
        room.old at room.new result }
{
    let end = at + text.len();
    room[at..end].copy_from_slice(text);
    end
}

fn store_byte(b: u8, room: &mut [u8], at: usize) -> usize
    requires { at + 1 ≤ length room.old }
    ensures { Stores (stored (b ∷ [])) 1 room.old at room.new result }
{
    room[at] = b;
    at + 1
}

// Most numbers of a line have one digit or two, which are stored as they are found.
fn store_field(n: u64, room: &mut [u8], at: usize) -> usize
    requires { at + number_field ≤ length room.old }
    ensures { Stores (fields_stored (digits n ∷ [])) number_field
        room.old at room.new result }
{
    let a = store_byte(b'\t', room, at);
    if n < 10 {
        return store_byte(b'0' + n as u8, room, a);
    }
    if n < 100 {
        let b = store_byte(b'0' + (n / 10) as u8, room, a);
        return store_byte(b'0' + (n % 10) as u8, room, b);
    }
    let mut text = [0u8; MOST_DIGITS];
    let first = spell(n, &mut text);
    store_all(&text[first..], room, a)
}

// The last field of a line.
fn store_last(n: u64, room: &mut [u8], at: usize) -> usize
    requires { at + (number_field + 1) ≤ length room.old }
    ensures { Stores (rest_stored (digits n ∷ [])) (number_field + 1)
        room.old at room.new result }
{
    let a = store_field(n, room, at);
    store_byte(b'\n', room, a)
}

fn store_mode(m: Mode, room: &mut [u8], at: usize) -> usize
    requires { at + 3 ≤ length room.old }
    ensures { Stores (fields_stored (mode_word m ∷ [])) 3
        room.old at room.new result }
{
    match m {
        Mode::N => store_all(b"\tN", room, at),
        Mode::D1 => store_all(b"\tD1", room, at),
        Mode::D2 => store_all(b"\tD2", room, at),
    }
}

// "An `idle` tick shows `-` for server and task."
fn store_dash(room: &mut [u8], at: usize) -> usize
    requires { at + 2 ≤ length room.old }
    ensures { Stores (fields_stored (dash ∷ [])) 2 room.old at room.new result }
{
    store_all(b"\t-", room, at)
}

// "what, server, task"
fn store_turn(turn: Turn, room: &mut [u8], at: usize) -> usize
    requires { at + turn_bytes ≤ length room.old }
    ensures { Stores (fields_stored (turn_fields turn)) turn_bytes
        room.old at room.new result }
{
    match turn {
        Turn::Run { server, task } => {
            let a = store_all(b"\trun", room, at);
            let b = store_field(server as u64, room, a);
            store_field(task as u64, room, b)
        }
        Turn::Empty { server } => {
            let a = store_all(b"\tempty", room, at);
            let b = store_field(server as u64, room, a);
            store_dash(room, b)
        }
        Turn::Idle => {
            let a = store_all(b"\tidle", room, at);
            let b = store_dash(room, a);
            store_dash(room, b)
        }
    }
}

// "how the earlier job left, its task"
fn store_left(left: Left, room: &mut [u8], at: usize) -> usize
    requires { at + left_bytes ≤ length room.old }
    ensures { Stores (fields_stored (left_fields left)) left_bytes
        room.old at room.new result }
{
    match left {
        Left::Nobody => {
            let a = store_dash(room, at);
            store_dash(room, a)
        }
        Left::Done(k) => {
            let a = store_all(b"\tdone", room, at);
            store_field(k as u64, room, a)
        }
        Left::Cut(k) => {
            let a = store_all(b"\tcut", room, at);
            store_field(k as u64, room, a)
        }
    }
}

// What became of a line, told by nine numbers. (Rattle.events.specs.Values.)
// Kept: nine numbers and no Told: they are lent so, and any nine have a line (told_said).
fn store_outcome(told: &[u64; TOLD_VALUES], room: &mut [u8], at: usize) -> usize
    requires { at + outcome_bytes ≤ length room.old }
    ensures { Stores (rest_stored (outcome (told_at told.now 0))) outcome_bytes
        room.old at room.new result }
{
    let [
        kind,
        number,
        mode,
        what,
        server,
        task,
        how,
        leaver,
        discarded,
    ] = *told;
    match kind {
        0 => {
            let a = store_all(b"\tno", room, at);
            store_last(number, room, a)
        }
        1 => {
            let a = store_all(b"\tok", room, at);
            store_byte(b'\n', room, a)
        }
        _ => {
            let a = store_field(number, room, at);
            let b = store_mode(table::mode_said(mode), room, a);
            let c = store_turn(said::turn_said(what, server, task), room, b);
            let d = store_left(said::left_said(how, leaver), room, c);
            store_last(discarded, room, d)
        }
    }
}

// The line that answers an event line, which two numbers say.
fn store_line(
    line: &[u64; LINE_VALUES],
    told: &[u64; TOLD_VALUES],
    room: &mut [u8],
    at: usize,
) -> usize
    requires { at + line_bytes ≤ length room.old }
    ensures { Stores (line_stored (answer_fields (first_line line.now) (told_at told.now 0)))
        line_bytes room.old at room.new result }
{
    match events::line_said(line[0], line[1]) {
        None => {
            let a = store_byte(b'?', room, at);
            store_outcome(told, room, a)
        }
        Some(Event::Tick(_)) => {
            let a = store_byte(b'T', room, at);
            store_outcome(told, room, a)
        }
        Some(Event::Release(k)) => {
            let a = store_byte(b'R', room, at);
            let b = store_field(k as u64, room, a);
            store_outcome(told, room, b)
        }
    }
}

// The answer lines of as many lines as both arrays hold, two and nine numbers each, at the front of
// the lent room, as long as the longest of them has room. Refused, where there is a line to print:
// 12.
pub fn print_lines(lines: &[u64], told: &[u64], room: &mut [u8]) -> Printed
    ensures { record { printed = result; room = room.new }
        ≡ print_of lines.now told.now room.old }
{
    let (lines, _) = lines.as_chunks::<LINE_VALUES>();
    let (told, _) = told.as_chunks::<TOLD_VALUES>();
    let lent = lines.len().min(told.len());
    if room.len() < LONGEST_ANSWER && lent != 0 {
        return Printed {
            answer: Err(Refusal::RoomShort),
            many: 0,
            put: 0,
        };
    }
    let many = lent.min(room.len() / LONGEST_ANSWER);
    let mut at = 0;
    for (line, told) in lines[..many].iter().zip(&told[..many]) {
        at = store_line(line, told, room, at);
    }
    Printed {
        answer: Ok(()),
        many,
        put: at,
    }
}

// The line that answers another line.
pub fn put_another(room: &mut [u8], at: usize) -> usize
    ensures { Put (closed_line another_fields) room.old at room.new result }
{
    put_all(b"?\tno\t1\n", room, at)
}

// (A taken table has no such line, and would be told by number 0.)
// Kept: put_refused is public and takes Ok too: a ReadError alone would ask more of callers.
fn store_refused(a: Result<(), ReadError>, room: &mut [u8], at: usize) -> usize
    requires { at + refused_bytes ≤ length room.old }
    ensures { Stores (line_stored (refused_fields a)) refused_bytes
        room.old at room.new result }
{
    let t = store_all(b"table", room, at);
    let b = store_all(b"\tno", room, t);
    match a {
        Ok(()) => store_last(0, room, b),
        Err(error) => match error {
            ReadError::Refused { why, line, field } => {
                let c = store_field(number_of(why), room, b);
                let d = store_field(line as u64, room, c);
                store_last(field as u64, room, d)
            }
            ReadError::Equal { first, second } => {
                let c = store_field(5, room, b);
                let d = store_field(first as u64, room, c);
                store_last(second as u64, room, d)
            }
        },
    }
}

// The line of a refused table.
pub fn put_refused(a: Result<(), ReadError>, room: &mut [u8], at: usize) -> usize
    ensures { Put (closed_line (refused_fields a)) room.old at room.new result }
{
    let mut line = [0u8; LONGEST_ANSWER];
    let n = store_refused(a, &mut line, 0);
    put_all(&line[..n], room, at)
}
