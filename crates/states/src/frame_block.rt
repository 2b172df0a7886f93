// The lines of a frame block: the table and the state of a frame box. (02, No. 6.)

ghost use Rattle.std.specs.Prelude.{◌≡◌, min};

use crate::line::{Broken, Fields};
use crate::rows::{Head, Queue, Rows};
use framerun::{FrameRun, FrameState};
use frametable::{FrameTable, FrameTask};
use table::TASKS;
use units::Micros;

#[derive(Clone, Copy)]
pub struct FrameBlock {
    tick: Micros,
    ntasks: usize,
    tasks: Rows<FrameTask, TASKS>,
    head: Head,
    queues: Rows<Queue, TASKS>,
}

// "A partition is any number here; one above 2 is no break of the format but breaks the rules": one
// that a byte cannot hold is taken as the greatest that it can, and so is a count of jobs.
fn at_most_byte(number: u32) -> u8
    ensures { result ≡ min number 255 }
{
    u8::try_from(number).unwrap_or(u8::MAX)
}

// A priority that a byte cannot hold is taken as 0, which breaks the rules as well.
// Kept: take_row and task_of in both kinds of block: their lines and their rows differ.
fn task_of(fields: &mut Fields) -> Result<FrameTask, Broken> {
    let partition = fields.number()?;
    let priority: u32 = fields.number()?;
    Ok(FrameTask {
        partition: at_most_byte(partition),
        priority: u8::try_from(priority).unwrap_or(0),
        limit: fields.ticks()?,
    })
}

impl FrameBlock {
    pub(crate) fn opened(fields: &mut Fields) -> Result<FrameBlock, Broken> {
        let none = frametable::no_frame_table();
        Ok(FrameBlock {
            tick: fields.micros()?,
            ntasks: fields.row()?,
            tasks: Rows::new(none.tasks[0]),
            head: Head::NONE,
            queues: Rows::new(Queue::default()),
        })
    }

    // A line that is no operation, but the first.
    pub(crate) fn take_row(&mut self, word: &[u8], fields: &mut Fields) -> Result<(), Broken> {
        match word {
            b"slotted" => self.tasks.push(task_of(fields)?),
            b"box" => {
                self.head = Head::of(fields)?;
                Ok(())
            }
            b"queue" => self.queues.push(Queue {
                waiting: at_most_byte(fields.number()?),
                runs: fields.number()?,
            }),
            _ => Err(Broken),
        }
    }

    pub(crate) fn run(&self) -> FrameRun
        ensures tasks { result.table.tasks ≡ self.now.tasks.all }
    {
        FrameRun {
            table: FrameTable {
                tick: self.tick,
                ntasks: self.ntasks,
                tasks: self.tasks.all,
            },
            state: FrameState {
                waiting: self.queues.all.map(|q| q.waiting),
                runs: self.queues.all.map(|q| q.runs),
                last: self.head.last,
                ticks: self.head.ticks,
                accepted: self.head.accepted,
            },
        }
    }
}
