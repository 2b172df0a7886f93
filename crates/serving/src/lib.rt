// A buffer of an event file, served: bytes to event lines, event lines to what is told to them,
// what is told to bytes. (01, One night in full.) The three rooms stand in the crates below; this
// is their composition for any box, and no loop over bytes is here. A frame box is served by the
// same code (crates/frameserving).

#![tactic(auto)]

ghost use Rattle.std.specs.Prelude.{◌≡◌, length};
ghost use Rattle.events.specs.Boxes.{Box};
ghost use Rattle.events.specs.Values.{lines_said};
ghost use Rattle.run.specs.Events.{the_box};
ghost use Rattle.lines.specs.Inner.{Fit, answered_cut};
ghost use Rattle.lines.specs.Many.{many_in};
ghost use Rattle.lines.specs.Serving.{service_in, serve_in};
ghost use Rattle.serving.specs.Buffer.{untaken, serve_of};

use cutter::cut_lines;
use events::{LINE_VALUES, Many, TOLD_VALUES};
use lines::{BATCH, Cut, Held, Served, lines_at_once};
use printer::print_lines;
use run::Run;
use table::Refusal;

// A box that takes event lines, by a name for it: what it holds, and its code, stand in crates
// below, which do not know of lines.
pub trait LineBox {
    type Run: Copy;

    ghost the_box: { Box Self.Run };

    // What is told to many event lines stands at the front of the lent room. Refused: 13, then 12.
    fn answer_many(r: Self::Run, lines: &[u64], told: &mut [u64]) -> Many<Self::Run>
        ensures { record { many = result; room = told.new }
            ≡ many_in the_box r lines.now told.old };
}

// Kept: run, held line, numbers and their count go apart, as `serve` and `cut_lines` hand them back.

// 12 and 13: nothing is taken, and what was handed in comes back.
fn refused<R: Copy>(why: Refusal, r: R, h: Held) -> Served<R>
    ensures { result ≡ untaken why r h }
{
    Served {
        answer: Err(why),
        run: r,
        held: h,
        eaten: 0,
        put: 0,
    }
}

// The lines that were cut, answered: the box is told of them, and what it tells is printed.
fn answer_lines<B: LineBox>(
    r: B::Run,
    h: Held,
    c: Cut,
    lines: &[u64],
    room: &mut [u8],
) -> Served<B::Run>
    requires { Fit lines.now (length room.old) }
    ensures { service_in result room.new
        ≡ answered_cut B.the_box r h c (lines_said lines.now) room.old }
{
    let mut told = [0u64; TOLD_VALUES * BATCH];
    let m = B::answer_many(r, lines, &mut told);
    let Ok(()) = m.answer else {
        return refused(Refusal::Unsound, r, h);
    };
    let Ok(()) = c.answer else {
        return refused(Refusal::RoomShort, r, h);
    };
    let n = lines.len() / LINE_VALUES;
    let p = print_lines(lines, &told[..TOLD_VALUES * n], room);
    Served {
        answer: Ok(()),
        run: m.run,
        held: c.held,
        eaten: c.eaten,
        put: p.put,
    }
}

// The answers to a buffer stand at the front of the lent room. At most a batch of lines is taken,
// and no more than the room holds the answers of; the rest of the buffer is to be served next, from
// what is handed back. Refused: 13, then, where a byte is there to take, 12.
pub fn serve_any<B: LineBox>(r: B::Run, h: Held, input: &[u8], room: &mut [u8]) -> Served<B::Run>
    ensures { service_in result room.new ≡ serve_in B.the_box r h input.now room.old }
{
    let most = lines_at_once(room.len());
    let mut values = [0u64; LINE_VALUES * BATCH];
    let c = cut_lines(h, input, &mut values[..LINE_VALUES * most]);
    answer_lines::<B>(r, h, c, &values[..LINE_VALUES * c.many], room)
}

// The box of documents 01 and 02: a run with servers.
pub struct ServerBox;

impl LineBox for ServerBox {
    type Run = Run;

    ghost the_box = { the_box };

    fn answer_many(r: Run, lines: &[u64], told: &mut [u64]) -> Many<Run> {
        scheduler::many::answer_many(r, lines, told)
    }
}

// A buffer served by it.
pub fn serve(r: Run, h: Held, input: &[u8], room: &mut [u8]) -> Served<Run>
    ensures { record { served = result; room = room.new } ≡ serve_of r h input.now room.old }
{
    serve_any::<ServerBox>(r, h, input, room)
}
