// The night of an event file, as a program answers it with any box: piece by piece. (01, One night
// in full.) The line that is not closed yet is held, so the cutting into reads does not show. Every
// byte of an answer is made by `next`, which neither reads nor writes (specs/Turns.antt); the loop
// around it only reads, calls it and writes.

ghost use Rattle.std.specs.Prelude.{◌≡◌, true};
ghost use Rattle.events.specs.Boxes.{Box};
ghost use Rattle.lines.specs.Pieces.{Ready, piece_in};
ghost use Rattle.lines.specs.Serving.{service_in, serve_in};
ghost use Rattle.files.specs.Turns.{Lent, stand, turn_in};
ghost use Rattle.files.specs.Answers.{Ended};

use crate::given::is_failed;
use crate::pieces::{PIECE, ROOM, answer_last};
use crate::{How, TURNS, take_piece, write_first};
use lines::{BATCH, Held, LONGEST_ANSWER, Served};
use std::io::Read;

// A box whose night a program answers, by a name for it.
pub trait NightBox {
    type Run: Copy;

    ghost the_box: { Box Self.Run };

    // A buffer of the file, served. What it leaves is no worse than what it was given.
    fn serve(r: Self::Run, h: Held, input: &[u8], room: &mut [u8]) -> Served<Self::Run>
        ensures served { service_in result room.new ≡ serve_in the_box r h input.now room.old }
        ensures sound { the_box.sound r ≡ true → the_box.sound result.run ≡ true };
}

// A night so far: the run, the line that is held, how many bytes were made for the writer last, and
// whether it goes on. Between two turns no event is refused by 13, and a line is held in one way
// only.
// Kept: put is written also where the file has ended, so an Err or a Break would carry it too.
#[derive(Drop)]
pub struct Night<B: NightBox> {
    pub run: B::Run,
    pub held: Held,
    pub put: usize,
    pub going: bool,
    pub ghost ready: { Ready B.the_box run held },
}

impl<B: NightBox> Night<B> {
    // All of a piece: a batch of lines at a time, each into the room behind the answers before.
    // Kept: `at` counts the bytes that each batch took, how many only `serve` tells.
    fn answer_piece(self, bytes: &[u8], room: &mut [u8]) -> Night<B>
        requires { Lent bytes.now room.old }
        ensures { stand result.run result.held result.put result.going room.new
            ≡ piece_in B.the_box self.run self.held bytes.now }
    {
        let mut run = self.run;
        let mut held = self.held;
        let mut at = 0;
        let mut put = 0;
        while at < bytes.len() {
            let most = BATCH.min(bytes.len() - at);
            let end = put + most * LONGEST_ANSWER;
            let s = B::serve(run, held, &bytes[at..], &mut room[put..end]);
            run = s.run;
            held = s.held;
            at += s.eaten;
            put += s.put;
        }
        Night {
            run,
            held,
            put,
            going: true,
        }
    }

    // One turn: what was read is answered; at the end of the file, the line that is held.
    fn next(self, how: How, bytes: &[u8], room: &mut [u8]) -> Night<B>
        requires { Lent bytes.now room.old }
        ensures { stand result.run result.held result.put result.going room.new
            ≡ turn_in B.the_box self.run self.held how bytes.now }
    {
        let put = match how {
            How::On => return self.answer_piece(bytes, room),
            How::End => answer_last(self.held, room),
            How::Failed => 0,
        };
        Night {
            run: self.run,
            held: self.held,
            put,
            going: false,
        }
    }
}

// The whole file: whether all of it was read and answered. Nothing else reads or writes.
pub fn answer_all<B: NightBox, R: Print + Eprint, S: Read>(
    rt: &R,
    n: Night<B>,
    events: &mut S,
) -> bool
    ensures { Ended result }
{
    let mut night = n;
    let mut piece = [0u8; PIECE];
    let mut room = [0u8; ROOM];
    for _ in 0..TURNS {
        let got = take_piece(rt, events, &mut piece);
        night = night.next(got.how, &piece[..got.len], &mut room);
        if !write_first(rt, &room, night.put) {
            return false;
        }
        if !night.going {
            return !is_failed(got.how);
        }
    }
    false
}
