// What the library answers to a block, as the format prints it.

ghost use Rattle.std.specs.Prelude.{◌≡◌, ◌≤◌, length, IfOk};
ghost use Rattle.events.specs.declared.Begun.{Begun};
ghost use Rattle.events.specs.declared.Event.{Event};
ghost use Rattle.events.specs.declared.Answered.{Answered};

use crate::block::{Block, Operation, Question, Step};
use crate::fault::Fault;
use events::{Answer, Answered, Begun, Event, TickAnswer, Told};
use framerun::FrameRun;
use run::Run;
use std::io;
use std::io::Write;
use table::{Refusal, TASKS, Table};
use text::LONGEST_TEXT;
use units::Ticks;
use verdict::{Fits, Verdict};

// What a room holds before it is lent.
const BEFORE: u8 = b'~';

// A run of either box: how it is started and answers an event, and its state lines.
trait Boxed: Copy {
    ghost started: { Self → Begun Self };

    ghost answered: { Self → Event → Answered Self };

    fn started(self) -> Begun<Self>
        ensures { result ≡ started self };

    fn answered(self, e: Event) -> Answered<Self>
        ensures { result ≡ answered self e };

    fn put_state<W: Write>(&self, out: &mut W) -> io::Result<()>;
}

impl Boxed for Run {
    ghost use Rattle.run.specs.Release.{start_of};
    ghost use Rattle.run.specs.Events.{event_of};

    ghost started = { λ r. start_of r.table };

    ghost answered = { event_of };

    fn started(self) -> Begun<Run> {
        scheduler::start(self.table)
    }

    fn answered(self, e: Event) -> Answered<Run> {
        match e {
            Event::Release(task) => scheduler::release(self, task),
            Event::Tick(mark) => scheduler::tick(self, mark),
        }
    }

    fn put_state<W: Write>(&self, out: &mut W) -> io::Result<()> {
        let s = &self.state;
        write!(out, "state\t{}", table::mode_value(s.mode))?;
        put_head(out, s.ticks, s.accepted, s.last)?;
        for (used, elapsed) in s.used.iter().zip(&s.elapsed).take(self.table.nservers) {
            writeln!(out, "budget\t{used}\t{elapsed}")?;
        }
        put_queues(out, &s.waiting, &s.runs, self.table.ntasks)
    }
}

impl Boxed for FrameRun {
    ghost use Rattle.framerun.specs.Release.{start_of};
    ghost use Rattle.framerun.specs.Events.{event_of};

    ghost started = { λ r. start_of r.table };

    ghost answered = { event_of };

    fn started(self) -> Begun<FrameRun> {
        framescheduler::start(self.table)
    }

    fn answered(self, e: Event) -> Answered<FrameRun> {
        match e {
            Event::Release(task) => framescheduler::release(self, task),
            Event::Tick(mark) => framescheduler::tick(self, mark),
        }
    }

    fn put_state<W: Write>(&self, out: &mut W) -> io::Result<()> {
        let s = &self.state;
        write!(out, "box")?;
        put_head(out, s.ticks, s.accepted, s.last)?;
        put_queues(out, &s.waiting, &s.runs, self.table.ntasks)
    }
}

// "the row of the last-run task is 0 if there is none"
// Kept: put_head, put_verdict, put_fits say cases by numbers, as the format (second/STATES.md).
fn put_head<W: Write>(
    out: &mut W,
    ticks: Ticks,
    accepted: u32,
    last: Option<usize>,
) -> io::Result<()> {
    let any = u8::from(last.is_some());
    let row = last.unwrap_or(0);
    writeln!(out, "\t{}\t{accepted}\t{any}\t{row}", ticks.0)
}

// The queues of the tasks in use.
fn put_queues<W: Write>(
    out: &mut W,
    waiting: &[u8; TASKS],
    runs: &[u32; TASKS],
    ntasks: usize,
) -> io::Result<()> {
    for (waiting, runs) in waiting.iter().zip(runs).take(ntasks) {
        writeln!(out, "queue\t{waiting}\t{runs}")?;
    }
    Ok(())
}

fn put_no<W: Write>(out: &mut W, why: Refusal) -> io::Result<()> {
    writeln!(out, "no\t{}", table::number_of(why))
}

fn put_begun<W: Write, B: Boxed>(out: &mut W, b: Begun<B>) -> io::Result<()> {
    match b.answer {
        Ok(()) => {
            writeln!(out, "fresh")?;
            b.run.put_state(out)
        }
        Err(why) => put_no(out, why),
    }
}

// What is told of a tick as plain numbers is the eight of the format, behind one that says that it
// is a tick.
fn put_tick<W: Write>(out: &mut W, a: TickAnswer) -> io::Result<()> {
    write!(out, "tick")?;
    for number in &events::told_values(Told::Ticked(a))[1..] {
        write!(out, "\t{number}")?;
    }
    writeln!(out)
}

fn put_answered<W: Write, B: Boxed>(out: &mut W, a: Answered<B>) -> io::Result<()> {
    match a.answer {
        Answer::Released(_) => writeln!(out, "release")?,
        Answer::Ticked(t) => put_tick(out, t)?,
        Answer::No(why) => return put_no(out, why),
    }
    a.run.put_state(out)
}

fn put_verdict<W: Write>(out: &mut W, v: Verdict) -> io::Result<()> {
    match v {
        Verdict::Response(r) => writeln!(out, "verdict\t1\t{}", r.0),
        Verdict::Misses => writeln!(out, "verdict\t0\t0"),
        Verdict::No(why) => put_no(out, why),
    }
}

fn put_fits<W: Write>(out: &mut W, f: Fits) -> io::Result<()> {
    match f {
        Fits::Yes => writeln!(out, "fits\t1\t0\t0"),
        Fits::Miss { mode, row } => writeln!(out, "fits\t0\t{}\t{row}", table::mode_value(mode)),
        Fits::No(why) => put_no(out, why),
    }
}

// The writer, lent as many bytes of the room as are asked for.
#[tactic(auto, unfolding(text::specs::Write::wrote))]
fn write_in(t: Table, size: usize, room: &mut [u8]) -> Result<usize, Refusal>
    ensures { IfOk result (λ many. many ≤ length room.new) }
{
    let lent = size.min(room.len());
    writer::write_table(t, &mut room[..lent])
}

// "A writer changes nothing beyond the text", and a refused one nothing at all: what no answer of
// the format could say is said too. The longest text is far shorter than the room.
fn put_written<W: Write>(out: &mut W, t: Table, size: usize) -> io::Result<()> {
    let mut room = [BEFORE; LONGEST_TEXT];
    match write_in(t, size, &mut room) {
        Ok(many) => {
            let (text, beyond) = room.split_at(many);
            if beyond.iter().any(|b| *b != BEFORE) {
                return writeln!(out, "changed beyond the text");
            }
            writeln!(out, "write\t{many}")?;
            out.write_all(text)
        }
        Err(why) => {
            if room.iter().any(|b| *b != BEFORE) {
                return writeln!(out, "changed though refused");
            }
            put_no(out, why)
        }
    }
}

fn put_step<W: Write, B: Boxed>(out: &mut W, r: B, asked: Step) -> io::Result<()> {
    match asked {
        Step::Fresh => put_begun(out, r.started()),
        Step::Event(e) => put_answered(out, r.answered(e)),
    }
}

fn put_question<W: Write>(out: &mut W, r: Run, asked: Question) -> io::Result<()> {
    match asked {
        Question::Verdict(row, m) => put_verdict(out, verdict::verdict_of(r.table, row, m)),
        Question::Fits => put_fits(out, verdict::fits_of(r.table)),
        Question::RunFits => put_fits(out, fitting::run_fits(r)),
        Question::Write(size) => put_written(out, r.table, size),
    }
}

// "The two kinds do not mix."
pub(crate) fn put_answer<W: Write>(out: &mut W, b: &Block, asked: Operation) -> Result<(), Fault> {
    match (b, asked) {
        (Block::OfTable(b), Operation::OfEither(step)) => put_step(out, b.run(), step)?,
        (Block::OfFrame(b), Operation::OfEither(step)) => put_step(out, b.run(), step)?,
        (Block::OfTable(b), Operation::OfTable(question)) => put_question(out, b.run(), question)?,
        (Block::OfFrame(_), Operation::OfTable(_)) => return Err(Fault::NotInFormat),
    }
    Ok(())
}
