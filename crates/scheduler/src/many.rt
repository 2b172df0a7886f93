// Many event lines at once: events to answers. Soundness (13) is decided once for all of them;
// behind that door stands a loop over the lines, which is lent the table's sheets and the state.
// Lines and what is told to them are plain numbers, as crate events lays them out
// (specs/Values.antt). A second door hands out of the ticks taken among the lines what is told and
// what is found (specs/Found.antt).

ghost use Rattle.std.specs.Prelude.{◌≡◌, ◌/◌, ◌≤◌, length, get_or, if◌then◌else◌};
ghost use Rattle.table.specs.declared.Refusal.TheVariants.{RoomShort, Unsound};
ghost use Rattle.events.specs.Values.{line_said};
ghost use Rattle.run.specs.Many.{many_of, find_of};
ghost use Rattle.run.specs.Sound.{sound};
ghost use Rattle.scheduler.specs.Inner.Steps.{none_found};
ghost use Rattle.scheduler.specs.Inner.Events.{SomeRun};
ghost use Rattle.scheduler.specs.Inner.Many.{LineTaken, LinesTaken, LinesFound, finding_of};

use crate::sheets::Sheets;
use crate::{event, open};
use events::{LINE_VALUES, Many, TOLD_VALUES, Told};
use run::{FOUND_VALUES, Finding, Run, State};
use table::Refusal;

// Kept: answer_ and find_ share answer_line; one for both would be lent a room it does not use.

// A line: the event that it says is taken or refused; "another line .. answers `?⇥no⇥1`" and
// changes nothing.
fn answer_line(
    sheets: &Sheets,
    state: &mut State,
    found: &mut [u8; FOUND_VALUES],
    line: &[u64; LINE_VALUES],
) -> Told
    requires { SomeRun sheets.now state.old × (found.old ≡ none_found) }
    ensures { LineTaken sheets.now (line_said (get_or line.now 0 0) (get_or line.now 1 0))
        state.old state.new found.new result }
{
    match events::line_said(line[0], line[1]) {
        Some(e) => events::told_of(event::event_in(sheets, state, found, e)),
        None => Told::No(table::number_of(Refusal::Malformed)),
    }
}

// The lines one after the other.
fn answer_lines(sheets: &Sheets, state: &mut State, lines: &[u64], told: &mut [u64])
    requires { (length lines.now / 2 ≤ length told.old / 9) × SomeRun sheets.now state.old }
    ensures { LinesTaken sheets.now lines.now state.old told.old state.new told.new }
{
    let (pairs, _) = lines.as_chunks::<LINE_VALUES>();
    for (i, line) in pairs.iter().enumerate() {
        let mut seen = [0u8; FOUND_VALUES];
        let x = answer_line(sheets, state, &mut seen, line);
        events::put_told(x, told, TOLD_VALUES * i);
    }
}

// The lines one after the other, and the ticks taken among them put into the lent rooms: how many
// ticks they are.
// Kept: ticks counts the lines that are ticks, and no iterator counts those alone.
fn find_lines(
    sheets: &Sheets,
    state: &mut State,
    lines: &[u64],
    told: &mut [u64],
    found: &mut [u8],
) -> usize
    requires { (length lines.now / 2 ≤ length told.old / 9)
        × (length lines.now / 2 ≤ length found.old / 96)
        × SomeRun sheets.now state.old }
    ensures { LinesFound sheets.now lines.now state.old told.old found.old
        state.new result told.new found.new }
{
    let (pairs, _) = lines.as_chunks::<LINE_VALUES>();
    let mut ticks = 0;
    for line in pairs {
        let mut seen = [0u8; FOUND_VALUES];
        let x = answer_line(sheets, state, &mut seen, line);
        if let Told::Ticked(_) = x {
            events::put_told(x, told, TOLD_VALUES * ticks);
            found[FOUND_VALUES * ticks..FOUND_VALUES * (ticks + 1)].copy_from_slice(&seen);
            ticks += 1;
        }
    }
    ticks
}

// Why no line is taken where a lent room is short: 13, then 12. No sheets are made for that.
fn refusal_of(r: Run) -> Refusal
    ensures { result ≡ (if sound r then RoomShort else Unsound) }
{
    if soundness::run_sound(r.table, r.state) {
        Refusal::RoomShort
    } else {
        Refusal::Unsound
    }
}

// Many event lines on a run: 13, then 12, are why none of them is taken.
fn answer_in(run: &mut Run, lines: &[u64], told: &mut [u64]) -> Result<(), Refusal>
    ensures { record { many = record { answer = result; run = run.new }; room = told.new }
        ≡ many_of run.old lines.now told.old }
{
    if told.len() / TOLD_VALUES < lines.len() / LINE_VALUES {
        return Err(refusal_of(*run));
    }
    let sheets = open(*run)?;
    answer_lines(&sheets, &mut run.state, lines, told);
    Ok(())
}

// What is told to many event lines stands at the front of the lent room, nine numbers a line.
// Refused: 13, then 12.
pub fn answer_many(r: Run, lines: &[u64], told: &mut [u64]) -> Many<Run>
    ensures { record { many = result; room = told.new } ≡ many_of r lines.now told.old }
{
    let mut run = r;
    let answer = answer_in(&mut run, lines, told);
    Many { answer, run }
}

// The same with what is found: how many ticks were taken, or 13, then 12.
fn find_in(
    run: &mut Run,
    lines: &[u64],
    told: &mut [u64],
    found: &mut [u8],
) -> Result<usize, Refusal>
    ensures { record { finding = finding_of run.new result; told = told.new; found = found.new }
        ≡ find_of run.old lines.now told.old found.old }
{
    let n = lines.len() / LINE_VALUES;
    if told.len() / TOLD_VALUES < n || found.len() / FOUND_VALUES < n {
        return Err(refusal_of(*run));
    }
    let sheets = open(*run)?;
    Ok(find_lines(&sheets, &mut run.state, lines, told, found))
}

// Many event lines once more. Of the ticks taken among them, one after the other, what is told
// stands at the front of one lent room, nine numbers a tick, and what steps 5 and 2 find at the
// front of another, 96 numbers a tick. Refused: 13, then 12 if either room is short.
pub fn find_many(r: Run, lines: &[u64], told: &mut [u64], found: &mut [u8]) -> Finding
    ensures { record { finding = result; told = told.new; found = found.new }
        ≡ find_of r lines.now told.old found.old }
{
    let mut run = r;
    match find_in(&mut run, lines, told, found) {
        Ok(ticks) => Finding {
            answer: Ok(()),
            run,
            ticks,
        },
        Err(why) => Finding {
            answer: Err(why),
            run,
            ticks: 0,
        },
    }
}
