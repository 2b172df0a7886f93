// Bytes put into a lent room from a place on. A byte for which there is no room is left out, and
// nothing else of the room changes. Each answers where the next byte goes: a place past the end of
// the room says that something was left out. (specs/Room.antt.)

// Kept: put_byte, put_all and put_number are public: the room and the place stay two parameters.
// Kept: crate printer has its own, which do not test each byte for room (docs/SPEED.md).

ghost use Rattle.std.specs.Prelude.{◌≡◌, [], ◌∷◌};
ghost use Rattle.decimal.specs.Number.{digits};
ghost use Rattle.decimal.specs.Room.{Put, spelled};

// No number of 64 bits has more digits.
pub const MOST_DIGITS: usize = 20;

pub fn put_byte(b: u8, room: &mut [u8], at: usize) -> usize
    ensures { Put (b ∷ []) room.old at room.new result }
{
    if at < room.len() {
        room[at] = b;
        return at + 1;
    }
    if at == room.len() {
        return at + 1;
    }
    at
}

pub fn put_all(text: &[u8], room: &mut [u8], at: usize) -> usize
    ensures { Put text.now room.old at room.new result }
{
    let mut k = at;
    for b in text {
        k = put_byte(*b, room, k);
    }
    k
}

// "Numbers are decimal": the last digit stands after those of the tenth part, so they are found
// from the last one on, and stand at the end of the lent text. Answers where the first one does.
// Kept: the places count down as the number is divided, and no list is walked.
pub fn spell(n: u64, text: &mut [u8; MOST_DIGITS]) -> usize
    ensures { record { text = text.exit.now; first = result } ≡ spelled n text.entry.now }
{
    let mut first = MOST_DIGITS;
    let mut left = n;
    while 10 <= left {
        first -= 1;
        text[first] = b'0' + (left % 10) as u8;
        left /= 10;
    }
    first -= 1;
    text[first] = b'0' + left as u8;
    first
}

// Kept: no heap here, and a Display cannot leave out what lacks room, as Put says.
pub fn put_number(n: u64, room: &mut [u8], at: usize) -> usize
    ensures { Put (digits n) room.old at room.new result }
{
    let mut text = [0u8; MOST_DIGITS];
    let first = spell(n, &mut text);
    put_all(&text[first..], room, at)
}
