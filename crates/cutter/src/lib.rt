// Bytes to event lines: an event file in pieces of any length, cut into its lines, which are left
// in a lent room as plain numbers (events::LINE_VALUES). The line that is not closed yet is held, so
// that the cutting of the file into pieces does not show. (01, One night in full.)

#![tactic(auto)]

ghost use Rattle.std.specs.Prelude.{◌≡◌, [], ◌∷◌, ◌++◌, ◌+◌, ◌≤◌, length};
ghost use Rattle.std.proofs.lemmas.List.Edits.{sets};
ghost use Rattle.decimal.specs.Lines.{tab, line_feed, index_of, slice};
ghost use Rattle.events.specs.Values.{line_values};
ghost use Rattle.lines.specs.EventLine.{event_line};
ghost use Rattle.lines.specs.HeldLine.{line_in, held_of, too_long};
ghost use Rattle.lines.specs.Cutting.{cut_of, cut_first};

use decimal::LINE_FEED;
use events::{Event, LINE_VALUES};
use lines::{Cut, Held, LONGEST_EVENT};
use table::Refusal;

// What a line says, without its line feed: a letter, a tab, and a number after them.
fn read_event(l: &[u8]) -> Option<Event>
    ensures { result ≡ event_line l.now }
{
    let [letter, b'\t', number @ ..] = l else {
        return None;
    };
    let v = decimal::read_number(number)?;
    match letter {
        b'R' => Some(Event::Release(v as usize)),
        b'T' if v <= 1 => Some(Event::Tick(v == 1)),
        _ => None,
    }
}

// A line as its two numbers.
fn line_values(line: Option<Event>) -> [u64; LINE_VALUES]
    ensures { result ≡ line_values line }
{
    match line {
        Some(Event::Release(k)) => [2, k as u64],
        Some(Event::Tick(mark)) => [1, u64::from(mark)],
        None => [0, 0],
    }
}

// No line yet: nothing is held at the start of a file, and after each line feed.
// Kept: two Held are written out, this and too_long: a derived default would not say more plainly.
#[tactic(auto, unfolding(lines::specs::HeldLine::longest, lines::specs::HeldLine::held_of))]
pub fn no_line() -> Held
    ensures { result ≡ held_of [] }
{
    Held {
        bytes: [0u8; LONGEST_EVENT],
        len: 0,
    }
}

// A line that is too long for an event line: no more of it is held.
#[tactic(auto, unfolding(lines::specs::HeldLine::longest, lines::specs::HeldLine::too_long))]
fn too_long() -> Held
    ensures { result ≡ too_long }
{
    Held {
        bytes: [0u8; LONGEST_EVENT],
        len: LONGEST_EVENT + 1,
    }
}

// The line that is held, and some bytes more.
fn hold(h: Held, part: &[u8]) -> Held
    ensures { result ≡ held_of (line_in h ++ part.now) }
{
    if LONGEST_EVENT < h.len || LONGEST_EVENT - h.len < part.len() {
        return too_long();
    }
    let len = h.len + part.len();
    let mut bytes = h.bytes;
    bytes[h.len..len].copy_from_slice(part);
    bytes[len..].fill(0);
    Held { bytes, len }
}

// What the line that is held says, now that it is closed.
fn read_held(h: Held) -> Option<Event>
    ensures { result ≡ event_line (line_in h) }
{
    if LONGEST_EVENT < h.len {
        return None;
    }
    read_event(&h.bytes[..h.len])
}

// What the line that is held and some bytes more say. Where nothing is held, they are read where
// they stand.
fn read_line(h: Held, part: &[u8]) -> Option<Event>
    ensures { result ≡ event_line (line_in h ++ part.now) }
{
    if h.len == 0 {
        return read_event(part);
    }
    read_held(hold(h, part))
}

// A line of a letter, a tab and one digit, as its numbers from a place of the room on. A processor
// cannot guess whether a release or a tick comes next: so both numbers are sums and products of
// tests, and no branch asks what the line says.
// Kept: put_short and line_values make plain numbers of a line (docs/SPEED.md, What costs).
fn put_short(letter: u8, digit: u8, lines: &mut [u64], at: usize)
    requires digit_value { (48 ≤ digit) × (digit ≤ 57) }
    requires at_in_bounds { at + 2 ≤ length lines.old }
    ensures { lines.new
        ≡ sets lines.old at (line_values (event_line (letter ∷ tab ∷ digit ∷ []))) }
{
    let v = u64::from(digit - b'0');
    let release = u64::from(letter == b'R');
    let tick = u64::from(letter == b'T') * u64::from(v <= 1);
    lines[at] = 2 * release + tick;
    lines[at + 1] = (release + tick) * v;
}

// A closed line, as its numbers from a place of the room on. Most lines of an event file have one
// digit, and such a one, of which nothing is held, is not read by its fields.
// Kept: (room, at) here and in put_short: arrays handed back took 15 instructions more for a line.
fn put_line(h: Held, part: &[u8], lines: &mut [u64], at: usize)
    requires { at + 2 ≤ length lines.old }
    ensures { lines.new
        ≡ sets lines.old at (line_values (event_line (line_in h ++ part.now))) }
{
    match part {
        [letter, b'\t', digit @ b'0'..=b'9'] if h.len == 0 => put_short(*letter, *digit, lines, at),
        _ => lines[at..at + LINE_VALUES].copy_from_slice(&line_values(read_line(h, part))),
    }
}

// Where the line that begins at a place ends: at the first line feed, or with the input where there
// is none. After a short line the line feed is the fourth byte: that is asked first, and only where
// it is not there the end is searched for in a loop.
// Kept: (text, at), as 01 has it: a line begins anywhere in the lent text and is read there.
fn line_end(input: &[u8], at: usize) -> usize
    requires { at ≤ length input.now }
    ensures value { result ≡ at + index_of line_feed (slice at (length input.now) input.now) }
    ensures upper_bound { result ≤ length input.now }
{
    if input.len() - at < 4 {
        return decimal::find(input, at, LINE_FEED);
    }
    if input[at + 3] != LINE_FEED {
        return decimal::find(input, at, LINE_FEED);
    }
    if input[at] == LINE_FEED {
        return at;
    }
    if input[at + 1] == LINE_FEED {
        return at + 1;
    }
    if input[at + 2] == LINE_FEED {
        return at + 2;
    }
    at + 3
}

// The lines of a piece, one after the other, as long as there is room for one more.
// Kept: lines are counted by `many`: what a loop over chunks_mut writes, no proof sees.
fn cut_first(h: Held, input: &[u8], lines: &mut [u64]) -> Cut
    ensures { record { cut = result; room = lines.new } ≡ cut_first h input.now lines.old }
{
    let most = lines.len() / LINE_VALUES;
    let mut held = h;
    let mut at = 0;
    for many in 0..most {
        let e = line_end(input, at);
        if e == input.len() {
            return Cut {
                answer: Ok(()),
                held: hold(held, &input[at..]),
                eaten: e,
                many,
            };
        }
        put_line(held, &input[at..e], lines, LINE_VALUES * many);
        held = no_line();
        at = e + 1;
    }
    Cut {
        answer: Ok(()),
        held: hold(held, &[]),
        eaten: at,
        many: most,
    }
}

// A piece of an event file, after a line that is not closed yet: the lines that it closes stand at
// the front of the lent room, two numbers each. Bytes are taken as long as there is room for one
// more line. Refused, where a byte is there to take: 12.
pub fn cut_lines(h: Held, input: &[u8], lines: &mut [u64]) -> Cut
    ensures { record { cut = result; room = lines.new } ≡ cut_of h input.now lines.old }
{
    if input.is_empty() {
        return Cut {
            answer: Ok(()),
            held: hold(h, input),
            eaten: 0,
            many: 0,
        };
    }
    if lines.len() < LINE_VALUES {
        return Cut {
            answer: Err(Refusal::RoomShort),
            held: h,
            eaten: 0,
            many: 0,
        };
    }
    cut_first(h, input, lines)
}
