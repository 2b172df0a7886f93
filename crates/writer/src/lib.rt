// The writer of table text. (01, Tables and Numbers for no.) What the text of a table is, and what
// is answered and left in the lent room, is in crate text, specs/Write.antt.

#![tactic(auto)]

ghost use Rattle.std.specs.Prelude.{◌≡◌, true, [], ◌∷◌, ◌++◌, map, ◌≤◌};
ghost use Rattle.decimal.specs.Number.{digits};
ghost use Rattle.decimal.specs.Lines.{tab, join, closed};
ghost use Rattle.decimal.specs.Room.{Put};
ghost use Rattle.table.specs.Rows.{rows_of};
ghost use Rattle.table.specs.Rules.{table_keeps};
ghost use Rattle.text.specs.declared.Line.TheVariants.{OfServer, OfTask};
ghost use Rattle.text.specs.Words.{kind_word, level_word};
ghost use Rattle.text.specs.Line.{times_fields, last_fields, write_line};
ghost use Rattle.text.specs.Write.{in_micros, times_back, phase_back, server_back, task_back, server_lines, task_lines, write, wrote};

use decimal::put::{put_all, put_byte, put_number};
use table::{ByMode, Kind, Level, Refusal, Server, Table, Task};
use text::LONGEST_TEXT;
use units::{Micros, Ticks};

// Kept: rows are put byte by byte, since a Display cannot leave out what lacks room, as Put says.
// Kept: room and place are two parameters, as of decimal's public put_byte, put_all and put_number.
// Kept: a tick is a Micros, which document 01 names, so that it is at most 10,000 is asked here.

// "text holds microseconds, a run holds ticks"
fn in_micros(x: Ticks, tick: Micros) -> Micros
    requires { tick.0 ≤ 10000 }
    ensures { result ≡ in_micros tick.0 x }
{
    Micros(x.0 as u64 * tick.0)
}

// At phase 0 "the writer then leaves the field out".
fn phase_back(x: Ticks, tick: Micros) -> Option<Micros>
    requires { tick.0 ≤ 10000 }
    ensures { result ≡ phase_back tick.0 x }
{
    if x.0 == 0 {
        return None;
    }
    Some(in_micros(x, tick))
}

// A number and the tab after it.
// Kept: put_field: a tab before or behind, as each page has it; two lines need no public function.
fn put_field(n: u64, room: &mut [u8], at: usize) -> usize
    ensures { Put (digits n ++ (tab ∷ [])) room.old at room.new result }
{
    let k = put_number(n, room, at);
    put_byte(b'\t', room, k)
}

#[tactic(auto, unfolding(text::specs::Words::event_word, text::specs::Words::timed_word))]
fn put_kind(kind: Kind, room: &mut [u8], at: usize) -> usize
    ensures { Put (kind_word kind ++ (tab ∷ [])) room.old at room.new result }
{
    match kind {
        Kind::Event => put_all(b"event\t", room, at),
        Kind::Timed => put_all(b"timed\t", room, at),
    }
}

fn put_level(level: Level, room: &mut [u8], at: usize) -> usize
    ensures { Put (level_word level ++ (tab ∷ [])) room.old at room.new result }
{
    match level {
        Level::LO => put_all(b"LO\t", room, at),
        Level::MI => put_all(b"MI\t", room, at),
        Level::HI => put_all(b"HI\t", room, at),
    }
}

fn put_time(x: Ticks, tick: Micros, room: &mut [u8], at: usize) -> usize
    requires { tick.0 ≤ 10000 }
    ensures { Put (digits (in_micros tick.0 x).0 ++ (tab ∷ [])) room.old at room.new result }
{
    put_field(in_micros(x, tick).0, room, at)
}

// A time for each mode, the last with no tab after it.
fn put_times(x: ByMode<Ticks>, tick: Micros, room: &mut [u8], at: usize) -> usize
    requires { tick.0 ≤ 10000 }
    ensures { Put (join tab (times_fields (times_back tick.0 x))) room.old at room.new result }
{
    let k = put_time(x.n, tick, room, at);
    let k = put_time(x.d1, tick, room, k);
    put_number(in_micros(x.d2, tick).0, room, k)
}

// Behind the fields before it: a tab and the last field, or nothing where it is absent.
fn put_last(last: Option<Micros>, room: &mut [u8], at: usize) -> usize
    ensures { Put (join tab ([] ∷ last_fields last)) room.old at room.new result }
{
    match last {
        None => at,
        Some(u) => {
            let k = put_byte(b'\t', room, at);
            put_number(u.0, room, k)
        }
    }
}

fn put_server(s: Server, tick: Micros, room: &mut [u8], at: usize) -> usize
    requires { tick.0 ≤ 10000 }
    ensures { Put (closed (write_line (OfServer (server_back tick.0 s)) ∷ []))
        room.old at room.new result }
{
    let k = put_all(b"server\t", room, at);
    let k = put_field(s.partition as u64, room, k);
    let k = put_kind(s.kind, room, k);
    let k = put_field(s.priority as u64, room, k);
    let k = put_time(s.period, tick, room, k);
    let k = put_times(s.capacity, tick, room, k);
    let k = put_last(phase_back(s.phase, tick), room, k);
    put_byte(b'\n', room, k)
}

fn put_task(x: Task, tick: Micros, room: &mut [u8], at: usize) -> usize
    requires { tick.0 ≤ 10000 }
    ensures { Put (closed (write_line (OfTask (task_back tick.0 x)) ∷ []))
        room.old at room.new result }
{
    let k = put_all(b"task\t", room, at);
    let k = put_field(x.home as u64, room, k);
    let k = put_field(x.degraded as u64, room, k);
    let k = put_field(x.priority as u64, room, k);
    let k = put_level(x.level, room, k);
    let k = put_times(x.limit, tick, room, k);
    put_byte(b'\n', room, k)
}

// Kept: put_servers and put_tasks are a loop each; a trait of rows to put is longer than both.
fn put_servers(ss: &[Server], tick: Micros, room: &mut [u8], at: usize) -> usize
    requires { tick.0 ≤ 10000 }
    ensures { Put (closed (map write_line (server_lines tick.0 ss.now)))
        room.old at room.new result }
{
    let mut k = at;
    for s in ss {
        k = put_server(*s, tick, room, k);
    }
    k
}

fn put_tasks(ks: &[Task], tick: Micros, room: &mut [u8], at: usize) -> usize
    requires { tick.0 ≤ 10000 }
    ensures { Put (closed (map write_line (task_lines tick.0 ks.now)))
        room.old at room.new result }
{
    let mut k = at;
    for x in ks {
        k = put_task(*x, tick, room, k);
    }
    k
}

// The whole text, from the start of the room on.
#[tactic(auto, using(crate::proofs::Write::bounds))]
fn put_table(t: Table, room: &mut [u8]) -> usize
    requires { table_keeps t ≡ true }
    ensures { Put (write (rows_of t)) room.old 0 room.new result }
{
    let k = put_all(b"tick\t", room, 0);
    let k = put_number(t.tick.0, room, k);
    let k = put_byte(b'\n', room, k);
    let k = put_servers(&t.servers[..t.nservers], t.tick, room, k);
    put_tasks(&t.tasks[..t.ntasks], t.tick, room, k)
}

// "Others: 13 first"; 12, "lent room shorter than the text": the text is made in a room of its own,
// so that a refused writer leaves the lent room as it was.
// Kept: no heap: that room is an array, and how many bytes of it are in use stands beside it.
pub fn write_table(t: Table, room: &mut [u8]) -> Result<usize, Refusal>
    ensures { record { answer = result; room = room.new } ≡ wrote t room.old }
{
    if !table::table_keeps(t) {
        return Err(Refusal::Unsound);
    }
    let mut text = [0u8; LONGEST_TEXT];
    let many = put_table(t, &mut text);
    if room.len() < many {
        return Err(Refusal::RoomShort);
    }
    put_all(&text[..many], room, 0);
    Ok(many)
}
