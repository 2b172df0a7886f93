// The reader of table text. (01, Tables and Numbers for no.) Which answer is right is in crate
// text, specs/Read.antt.

#![tactic(auto)]

mod fields;
mod forms;
pub mod frame;
mod rows;
mod rules;

ghost use Rattle.std.specs.Prelude.{◌≡◌, ℕ, List, Result};
ghost use Rattle.table.specs.Rows.{rows_of};
ghost use Rattle.text.specs.declared.ReadError.{ReadError};
ghost use Rattle.text.specs.TableText.{handed};
ghost use Rattle.text.specs.Read.{ended, read, shown};
ghost use Rattle.reader.specs.Inner.{Above};

use table::{Refusal, THE_LINE, Table};
use text::{LONGEST_TEXT, Line, ReadError};

// The text ends before line n, t holding its rows. "5 for the first pair of server rows with equal
// priority": row 0 stands on line 2. "then the same for tasks": they stand below the servers.
fn end(n: usize, t: Table) -> Result<Table, ReadError>
    requires { Above n t }
    ensures { result ≡ handed (shown (ended n (rows_of t))) }
{
    if t.ntasks == 0 {
        return Err(ReadError::Refused {
            why: Refusal::Malformed,
            line: n,
            field: THE_LINE,
        });
    }
    if let Some((i, j)) = table::equal_servers(t.servers, t.nservers) {
        return Err(ReadError::Equal {
            first: 2 + i,
            second: 2 + j,
        });
    }
    let top = 2 + t.nservers;
    if let Some((i, j)) = table::equal_tasks(t.tasks, t.ntasks) {
        return Err(ReadError::Equal {
            first: top + i,
            second: top + j,
        });
    }
    Ok(t)
}

// Kept: one walk would need a trait of five methods, each with its law; the two are shorter.
// Kept: at, n by hand: where a line ends is found by the pass that reads it, and not before.

// What a text says: its table, or why it is none. "a line begins anywhere in the lent text and is
// read there": line n begins at `at`, and the text is lent from there on; the walk that reads the
// line finds where it ends. A line is judged by the two rows that it names, and its row is put
// behind those in use: a table or an array of rows handed to a function would be copied whole, for
// every line.
// Kept: no `?` in the walks: a fault has no line number, which a From could not add.
pub fn read_table(text: &[u8]) -> Result<Table, ReadError>
    ensures { result ≡ handed (shown (read text.now)) }
{
    if LONGEST_TEXT < text.len() {
        return Err(ReadError::Refused {
            why: Refusal::OutOfBounds,
            line: 0,
            field: THE_LINE,
        });
    }
    let mut t = table::no_table();
    let mut at = 0;
    let mut n = 1;
    loop {
        if at == text.len() {
            return end(n, t);
        }
        let r = forms::read_line(&text[at..]);
        let e = at + r.end;
        if e == text.len() {
            return Err(ReadError::Refused {
                why: Refusal::Malformed,
                line: n,
                field: THE_LINE,
            });
        }
        let named = rules::named_rows(r.said);
        let h = t.servers[named.home];
        let d = t.servers[named.degraded];
        if let Err(fault) = rules::line_standing(n, t.tick, t.nservers, t.ntasks, h, d, r.said) {
            return Err(ReadError::Refused {
                why: fault.why,
                line: n,
                field: fault.field,
            });
        }
        match r.said {
            Line::OfTick(u) => {
                t.tick = u;
            }
            Line::OfServer(s) => {
                t.servers[t.nservers] = rows::server_row(t.nservers, t.tick, s);
                t.nservers += 1;
            }
            Line::OfTask(k) => {
                t.tasks[t.ntasks] = rows::task_row(t.tick, k);
                t.ntasks += 1;
            }
            Line::Malformed(_, _) => {}
        }
        at = e + 1;
        n += 1;
    }
}

// A kind of table that is read from a text.
pub trait FromText {
    ghost read_of: { List ℕ → Result Self ReadError };

    fn from_text(text: &[u8]) -> Result<Self, ReadError>
        ensures { result ≡ read_of text.now };
}

impl FromText for Table {
    ghost read_of = { λ text. handed (shown (read text)) };

    fn from_text(text: &[u8]) -> Result<Self, ReadError> {
        read_table(text)
    }
}
