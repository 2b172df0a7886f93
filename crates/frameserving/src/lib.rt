// A buffer of an event file, served by a frame box. (02, No. 6; 01, One night in full.) What is done
// with the buffer is done for any box (crates/serving).

#![tactic(auto)]

ghost use Rattle.std.specs.Prelude.{◌≡◌};
ghost use Rattle.framerun.specs.Events.{frame_box};
ghost use Rattle.frameserving.specs.Buffer.{frame_serve_of};

use events::Many;
use framerun::FrameRun;
use lines::{Held, Served};
use serving::{LineBox, serve_any};

pub struct FrameBox;

impl LineBox for FrameBox {
    type Run = FrameRun;

    ghost the_box = { frame_box };

    fn answer_many(r: FrameRun, lines: &[u64], told: &mut [u64]) -> Many<FrameRun> {
        framescheduler::answer_many(r, lines, told)
    }
}

// The answers to a buffer stand at the front of the lent room. At most a batch of lines is taken,
// and no more than the room holds the answers of; the rest of the buffer is to be served next, from
// what is handed back. Refused: 13, then, where a byte is there to take, 12.
pub fn serve(r: FrameRun, h: Held, input: &[u8], room: &mut [u8]) -> Served<FrameRun>
    ensures { record { served = result; room = room.new } ≡ frame_serve_of r h input.now room.old }
{
    serve_any::<FrameBox>(r, h, input, room)
}
