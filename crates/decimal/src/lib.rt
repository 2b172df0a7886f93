// Decimal numbers and words in text. (01, Tables.) Which bytes are a number, and which number, is
// in specs/Number.antt; how text is cut into lines and lines into fields is in specs/Lines.antt.

#![tactic(auto)]

pub mod put;

ghost use Rattle.std.specs.Prelude.{◌≡◌, ◌+◌, ◌≤◌, min, length};
ghost use Rattle.decimal.specs.Number.{read_number};
ghost use Rattle.decimal.specs.Lines.{same, index_of, slice};
ghost use Rattle.decimal.specs.Inner.Fields.{field_end, field_from};
ghost use Rattle.decimal.specs.Inner.{Digit, DigitsFrom, as_number};

pub const TAB: u8 = 9;

pub const LINE_FEED: u8 = 10;

// "1 to 11 digits".
const LONGEST_NUMBER: usize = 11;

// Digits in a row: what they are worth, and the place after them.
#[derive(Clone, Copy)]
struct Digits {
    worth: u64,
    end: usize,
}

// Where a field ends, and whether a tab stands there: then another field follows.
// Kept: both always say something: a field that ends with its line has a place too.
#[derive(Clone, Copy)]
pub struct End {
    pub at: usize,
    pub more: bool,
}

// A field, and its number if it is one.
#[derive(Clone, Copy)]
pub struct Field {
    pub number: Option<u64>,
    pub end: End,
}

// Kept: document 01 hands the field readers a text from its middle (digits_at .. find: text, at).

// A byte less 48, going round: at most 9, and then its worth, exactly if it is a digit.
fn digit(b: u8) -> u64
    ensures { Digit b result }
{
    (b as u64).wrapping_sub(48)
}

// Where the digits from a place on end, and what they are worth, come out of one walk. At most 11
// are walked: no product and no sum is past what 64 bits hold, and a 12th digit ends them as any
// other byte does.
fn digits_at(s: &[u8], at: usize) -> Digits
    requires { at ≤ length s.now }
    ensures { DigitsFrom s.now at (min (at + 11) (length s.now)) result }
{
    let stop = at + LONGEST_NUMBER.min(s.len() - at);
    let mut worth: u64 = 0;
    for (i, b) in s[at..stop].iter().enumerate() {
        let d = digit(*b);
        if 9 < d {
            return Digits { worth, end: at + i };
        }
        worth = worth * 10 + d;
    }
    Digits { worth, end: stop }
}

// Where the field ends that begins at a place of a text.
pub fn field_end(text: &[u8], at: usize) -> End
    ensures { result ≡ field_end text.now at }
{
    if text.len() <= at {
        return End { at, more: false };
    }
    for (i, b) in text[at..].iter().enumerate() {
        if *b == TAB {
            return End {
                at: at + i,
                more: true,
            };
        }
        if *b == LINE_FEED {
            return End {
                at: at + i,
                more: false,
            };
        }
    }
    End {
        at: text.len(),
        more: false,
    }
}

// What so many digits are, by their worth and the first of them. "no leading zero but in `0`"
// Kept: std's parse takes a sign and leading zeros.
fn as_number(worth: u64, many: usize, first: u8) -> Option<u64>
    ensures { result ≡ as_number worth many first }
{
    if many == 0 || first == b'0' && many != 1 {
        return None;
    }
    Some(worth)
}

// That field, read as a number. Its digits are walked once; what stands after them, if anything
// does, is walked only for where it ends.
pub fn read_field(text: &[u8], at: usize) -> Field
    ensures { result ≡ field_from text.now at }
{
    if text.len() <= at {
        return Field {
            number: None,
            end: End { at, more: false },
        };
    }
    let d = digits_at(text, at);
    let end = field_end(text, d.end);
    if end.at != d.end {
        return Field { number: None, end };
    }
    let number = as_number(d.worth, d.end - at, text[at]);
    Field { number, end }
}

pub fn read_number(s: &[u8]) -> Option<u64>
    ensures { result ≡ read_number s.now }
{
    let f = read_field(s, 0);
    if f.end.at != s.len() {
        return None;
    }
    f.number
}

// Whether two texts are equal byte by byte.
pub fn is_same(a: &[u8], b: &[u8]) -> bool
    ensures { result ≡ same a.now b.now }
{
    a == b
}

// Where the first byte b from a place of a text on stands, or its end where there is none; past the
// end, the place itself.
pub fn find(text: &[u8], at: usize, b: u8) -> usize
    ensures value { result ≡ at + index_of b (slice at (length text.now) text.now) }
    ensures upper_bound { at ≤ length text.now → result ≤ length text.now }
{
    if text.len() <= at {
        return at;
    }
    for (i, x) in text[at..].iter().enumerate() {
        if *x == b {
            return at + i;
        }
    }
    text.len()
}
