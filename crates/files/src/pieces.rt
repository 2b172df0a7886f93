// An event file as a program answers it, piece by piece, whatever box it is told to: how long a piece
// is, and what is said where the file ends.

ghost use Rattle.decimal.specs.Room.{Put};
ghost use Rattle.lines.specs.HeldLine.{line_in};
ghost use Rattle.lines.specs.Pieces.{last_text};

use lines::{Held, LONGEST_ANSWER};

// The event file is read in pieces of so many bytes.
pub const PIECE: usize = 4096;

// Each byte of a piece may close a line, and each answer be as long as the longest.
pub const ROOM: usize = PIECE * LONGEST_ANSWER;

// "or an unclosed last one": it is answered as another line.
pub fn answer_last(h: Held, room: &mut [u8]) -> usize
    ensures { Put (last_text (line_in h)) room.old 0 room.new result }
{
    if 0 < h.len {
        return printer::put_another(room, 0);
    }
    0
}
