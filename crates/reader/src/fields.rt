// The fields of a line after its leading word, in one pass: each is found, tested and read where it
// stands, and the last one ends the line. (01, Tables.) What the fields are expected to be is a
// shape, a letter for each: `n` a number, `k` a kind, `l` a level.

ghost use Rattle.std.specs.Prelude.{◌≡◌, ◌≤◌, ◌<◌, length};
ghost use Rattle.text.specs.Line.{a_kind, a_level};
ghost use Rattle.reader.specs.Inner.Fields.{expected_of, read_field, field_as, first_wrong, counted, fields_passed};

use decimal::{Field, LINE_FEED};
use table::THE_LINE;

// The most fields that a kind of line has after its leading word.
pub const FIELDS: usize = 8;

// The first field that is not as it should be, from 1, or 0 for their count; the number of each,
// the worth of a number or the place of a word among those of its kind; how many were read; and
// where the line ends.
// Kept: an array beside wrong and count: as a Result it is copied for each line (docs/SPEED.md).
#[derive(Clone, Copy)]
pub struct Fields {
    pub wrong: Option<usize>,
    pub values: [u64; FIELDS],
    pub count: usize,
    pub end: usize,
}

// Kept: read_kind, read_level give numbers: one pass over any line fills one array (02, No. 2, 3).
// Kept: is_same in a chain: a match on byte strings leaves a goal open for each byte of a word.

// event 0, timed 1
#[tactic(auto, using(crate::proofs::Inner::Fields::kinds))]
fn read_kind(s: &[u8]) -> Option<u64>
    ensures { result ≡ read_field a_kind s.now }
{
    if decimal::is_same(s, b"timed") {
        return Some(1);
    }
    if decimal::is_same(s, b"event") {
        return Some(0);
    }
    None
}

// LO 0, MI 1, HI 2
#[tactic(auto, using(crate::proofs::Inner::Fields::levels))]
fn read_level(s: &[u8]) -> Option<u64>
    ensures { result ≡ read_field a_level s.now }
{
    if decimal::is_same(s, b"HI") {
        return Some(2);
    }
    if decimal::is_same(s, b"MI") {
        return Some(1);
    }
    if decimal::is_same(s, b"LO") {
        return Some(0);
    }
    None
}

// Kept: shapes as letters, here and in read_fields: eight variants are no plainer than `nknnnnnn`.
// Kept: text, at: a place in the text that is lent, since lines are read from its middle (01).

// The field that begins at a place, by the letter of the shape.
#[tactic(auto, using(crate::proofs::Inner::Fields::field_steps))]
fn read_field(text: &[u8], at: usize, letter: u8) -> Field
    requires { at ≤ length text.now }
    ensures { result ≡ field_as (expected_of letter) text.now at }
{
    if letter == b'n' {
        return decimal::read_field(text, at);
    }
    let end = decimal::field_end(text, at);
    let word = &text[at..end.at];
    let number = if letter == b'k' {
        read_kind(word)
    } else {
        read_level(word)
    };
    Field { number, end }
}

// The first place that is told, field k being as it was read.
fn first_wrong(wrong: Option<usize>, n: Option<u64>, k: usize) -> Option<usize>
    ensures { result ≡ first_wrong wrong n k }
{
    match n {
        Some(_) => wrong,
        None => wrong.or(Some(k)),
    }
}

// The line ends after n fields: their count is told before any field.
fn count(wrong: Option<usize>, n: usize, least: usize) -> Option<usize>
    ensures { result ≡ counted least n wrong }
{
    if n < least {
        return Some(THE_LINE);
    }
    wrong
}

pub(crate) fn read_fields(text: &[u8], from: usize, shape: &[u8], least: usize) -> Fields
    requires { (from ≤ length text.now) × (length shape.now ≤ 8) }
    ensures { result ≡ fields_passed least shape.now text.now from }
{
    let mut values = [0; FIELDS];
    let mut wrong = None;
    let mut at = from;
    for (k, letter) in shape.iter().enumerate() {
        let f = read_field(text, at, *letter);
        values[k] = f.number.unwrap_or(0);
        wrong = first_wrong(wrong, f.number, k + 1);
        if !f.end.more {
            return Fields {
                wrong: count(wrong, k + 1, least),
                values,
                count: k + 1,
                end: f.end.at,
            };
        }
        at = f.end.at + 1;
    }
    Fields {
        wrong: Some(THE_LINE),
        values,
        count: shape.len(),
        end: decimal::find(text, at, LINE_FEED),
    }
}
