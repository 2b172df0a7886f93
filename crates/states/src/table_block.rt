// The lines of a table block: the table and the state of a box with servers.

ghost use Rattle.std.specs.Prelude.{◌≡◌};

use crate::line::{Broken, Fields};
use crate::rows::{Head, Queue, Rows};
use run::{Run, State};
use table::{Kind, Level, Mode, SERVERS, Server, TASKS, Table, Task};
use units::{Micros, Ticks};

// "used, elapsed"
#[derive(Clone, Copy, Default)]
struct Budget {
    used: u32,
    elapsed: u32,
}

#[derive(Clone, Copy)]
pub struct TableBlock {
    tick: Micros,
    nservers: usize,
    ntasks: usize,
    servers: Rows<Server, SERVERS>,
    tasks: Rows<Task, TASKS>,
    mode: Mode,
    head: Head,
    budgets: Rows<Budget, SERVERS>,
    queues: Rows<Queue, TASKS>,
}

// The phase is 0 where it is not given.
fn server_of(fields: &mut Fields) -> Result<Server, Broken> {
    Ok(Server {
        partition: fields.number()?,
        kind: fields.one_of([Kind::Event, Kind::Timed])?,
        priority: fields.number()?,
        period: fields.ticks()?,
        capacity: fields.by_mode()?,
        phase: if fields.is_read() {
            Ticks(0)
        } else {
            fields.ticks()?
        },
    })
}

// Kept: take_row and task_of in both kinds of block: their lines and their rows differ.
fn task_of(fields: &mut Fields) -> Result<Task, Broken> {
    Ok(Task {
        home: fields.number()?,
        degraded: fields.number()?,
        priority: fields.number()?,
        level: fields.one_of([Level::LO, Level::MI, Level::HI])?,
        limit: fields.by_mode()?,
    })
}

impl TableBlock {
    pub(crate) fn opened(fields: &mut Fields) -> Result<TableBlock, Broken> {
        let none = table::no_table();
        Ok(TableBlock {
            tick: fields.micros()?,
            nservers: fields.row()?,
            ntasks: fields.row()?,
            servers: Rows::new(none.servers[0]),
            tasks: Rows::new(none.tasks[0]),
            mode: Mode::N,
            head: Head::NONE,
            budgets: Rows::new(Budget::default()),
            queues: Rows::new(Queue::default()),
        })
    }

    // A line that is no operation, but the first.
    pub(crate) fn take_row(&mut self, word: &[u8], fields: &mut Fields) -> Result<(), Broken> {
        match word {
            b"server" => self.servers.push(server_of(fields)?),
            b"task" => self.tasks.push(task_of(fields)?),
            b"state" => {
                self.mode = fields.mode()?;
                self.head = Head::of(fields)?;
                Ok(())
            }
            b"budget" => self.budgets.push(Budget {
                used: fields.number()?,
                elapsed: fields.number()?,
            }),
            b"queue" => self.queues.push(Queue {
                waiting: fields.number()?,
                runs: fields.number()?,
            }),
            _ => Err(Broken),
        }
    }

    pub(crate) fn run(&self) -> Run
        ensures servers { result.table.servers ≡ self.now.servers.all }
        ensures tasks { result.table.tasks ≡ self.now.tasks.all }
    {
        Run {
            table: Table {
                tick: self.tick,
                nservers: self.nservers,
                ntasks: self.ntasks,
                servers: self.servers.all,
                tasks: self.tasks.all,
            },
            state: State {
                mode: self.mode,
                used: self.budgets.all.map(|b| b.used),
                elapsed: self.budgets.all.map(|b| b.elapsed),
                waiting: self.queues.all.map(|q| q.waiting),
                runs: self.queues.all.map(|q| q.runs),
                last: self.head.last,
                ticks: self.head.ticks,
                accepted: self.head.accepted,
            },
        }
    }
}
