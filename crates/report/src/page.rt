// The page of the morning report, made of the numbers that were counted. (crate morning's
// specs/Page.antt.)

ghost use Rattle.std.specs.Prelude.{◌≡◌, [], ◌∷◌, ◌≤◌, ◌<◌, length, take};
ghost use Rattle.laws.specs.Quoted.{bytes};
ghost use Rattle.decimal.specs.Number.{digits};
ghost use Rattle.decimal.specs.Lines.{closed};
ghost use Rattle.lines.specs.AnswerLine.{printed};
ghost use Rattle.report.specs.Inner.Page.{FieldPut, LinesPut, server_line_in, task_line_in};
ghost use Rattle.report.specs.Inner.Page.{server_lines_in, task_lines_in, mode_lines_in, page_in, longest_page};

use crate::count::Counts;
use decimal::put::{put_all, put_byte, put_number};
use table::{MODES, SERVERS, TASKS};

// A line has at most six fields, of 20 bytes each, with what parts and closes them: 127 bytes hold it.
pub(crate) const ROOM: usize = (SERVERS + TASKS + MODES) * 127;

// A tab and a number.
// Kept: the put_ functions take (room, at), as decimal's public ones; no heap for a String.
fn put_field(x: u64, room: &mut [u8], at: usize) -> usize
    ensures { FieldPut x room.old at room.new result }
{
    let k = put_byte(b'\t', room, at);
    put_number(x, room, k)
}

fn put_server(i: usize, counts: &Counts, room: &mut [u8], at: usize) -> usize
    requires { i < 32 }
    ensures { LinesPut (server_line_in counts.now i ∷ []) room.old at room.new result }
{
    let k = put_all(b"server", room, at);
    let k = put_field(i as u64, room, k);
    let k = put_field(u64::from(counts.charged[i]), room, k);
    let k = put_field(u64::from(counts.empty[i]), room, k);
    let k = put_field(u64::from(counts.longest[i]), room, k);
    put_byte(b'\n', room, k)
}

// Kept: put_servers and put_tasks go by row, for a row's numbers stand in several columns.
fn put_servers(n: usize, counts: &Counts, room: &mut [u8], at: usize) -> usize
    requires { n ≤ 32 }
    ensures { LinesPut (server_lines_in n counts.now) room.old at room.new result }
{
    let mut k = at;
    for i in 0..n {
        k = put_server(i, counts, room, k);
    }
    k
}

fn put_task(i: usize, counts: &Counts, waiting: &[u8; TASKS], room: &mut [u8], at: usize) -> usize
    requires { i < 64 }
    ensures { LinesPut (task_line_in counts.now waiting.now i ∷ [])
        room.old at room.new result }
{
    let waits = queues::job_count(waiting[i]);
    let k = put_all(b"task", room, at);
    let k = put_field(i as u64, room, k);
    let k = put_field(counts.finished[i], room, k);
    let k = put_field(counts.cut[i], room, k);
    let k = put_field(counts.discarded[i], room, k);
    let k = put_field(u64::from(waits), room, k);
    put_byte(b'\n', room, k)
}

fn put_tasks(n: usize, counts: &Counts, waiting: &[u8; TASKS], room: &mut [u8], at: usize) -> usize
    requires { n ≤ 64 }
    ensures { LinesPut (task_lines_in n counts.now waiting.now)
        room.old at room.new result }
{
    let mut k = at;
    for i in 0..n {
        k = put_task(i, counts, waiting, room, k);
    }
    k
}

// A mode's line: its name and its ticks.
fn put_mode(word: &[u8], x: u64, room: &mut [u8], at: usize) -> usize
    requires { length word.now ≤ 2 }
    ensures { LinesPut (printed (bytes "mode" ∷ word.now ∷ digits x ∷ []) ∷ [])
        room.old at room.new result }
{
    let k = put_all(b"mode", room, at);
    let k = put_byte(b'\t', room, k);
    let k = put_all(word, room, k);
    let k = put_field(x, room, k);
    put_byte(b'\n', room, k)
}

fn put_modes(modes: &[u64; MODES], room: &mut [u8], at: usize) -> usize
    ensures { LinesPut (mode_lines_in modes.now) room.old at room.new result }
{
    let k = put_mode(b"N", modes[0], room, at);
    let k = put_mode(b"D1", modes[1], room, k);
    put_mode(b"D2", modes[2], room, k)
}

// First the servers, then the tasks, then the modes: the room holds all of it.
pub(crate) fn put_page(
    nservers: usize,
    ntasks: usize,
    counts: &Counts,
    waiting: &[u8; TASKS],
    room: &mut [u8],
) -> usize
    requires nservers_bound { (nservers ≤ 32) × (ntasks ≤ 64) }
    requires longest_page_in_bounds { longest_page ≤ length room.old }
    ensures { take result room.new
        ≡ closed (page_in nservers ntasks counts.now waiting.now) }
{
    let k = put_servers(nservers, counts, room, 0);
    let k = put_tasks(ntasks, counts, waiting, room, k);
    put_modes(&counts.modes, room, k)
}
