// `states FILE`: tables and states by their fields, block by block, and what the library answers to
// each. The format is in second/STATES.md; `-` is standard input. A line that breaks the format is
// said on standard error, and ends the program.

#![tactic(auto)]

mod answer;
mod block;
mod fault;
mod frame_block;
mod line;
mod rows;
mod table_block;

ghost use Rattle.std.specs.Prelude.{◌≡◌, min, length, leb};

use crate::block::{Block, Operation};
use crate::fault::Fault;
use crate::line::Fields;
use decimal::LINE_FEED;
use files::How;
use std::io::{Cursor, Read};
use std::process::ExitCode;
use std::rt::Runtime;
use std::str;

// A line of the format has at most some 120 bytes.
const LONGEST_LINE: usize = 256;

// The file is read in pieces of so many bytes.
const PIECE: usize = 65536;

// No answer is longer: 98 lines, or the text of a table.
const LONGEST_SAID: usize = 16384;

// The line that is not closed yet.
// Kept: bytes and how many are held (no heap); lines::Held is promised, and has other laws.
#[derive(Clone, Copy)]
struct Held {
    bytes: [u8; LONGEST_LINE],
    len: usize,
}

// What was taken of the file so far.
#[derive(Clone, Copy)]
struct Feed {
    open: Option<Block>,
    held: Held,
}

// What is no text is said with escapes.
fn say<R: Eprint>(rt: &R, what: &str, line: &[u8]) {
    let _ = match str::from_utf8(line) {
        Ok(text) => eprintln!(rt; "{what}{text}"),
        Err(_) => eprintln!(rt; "{what}{}", line.escape_ascii()),
    };
}

fn say_answer<R: Print + Eprint>(rt: &R, b: &Block, asked: Operation) -> Result<(), Fault> {
    let mut said = Cursor::new([0; LONGEST_SAID]);
    answer::put_answer(&mut said, b, asked)?;
    if files::write_first(rt, said.get_ref(), said.position() as usize) {
        Ok(())
    } else {
        Err(Fault::Failed)
    }
}

// A line, without its line feed.
fn take_line<R: Print + Eprint>(
    rt: &R,
    open: &mut Option<Block>,
    line: &[u8],
) -> Result<(), Fault> {
    // "Empty lines and lines that begin with `#` are passed over."
    if matches!(line, [] | [b'#', ..]) {
        return Ok(());
    }
    let mut fields = Fields::of(line);
    let word = fields.text()?;
    if let Some(asked) = block::operation_of(word, &mut fields)? {
        fields.end()?;
        let block = open.take().ok_or(Fault::NoBlock)?;
        return say_answer(rt, &block, asked);
    }
    match open {
        Some(block) => block.take_row(word, &mut fields)?,
        None => *open = Some(Block::opened(word, &mut fields)?),
    }
    fields.end()?;
    Ok(())
}

impl Held {
    fn push(&mut self, text: &[u8]) {
        self.len = decimal::put::put_all(text, &mut self.bytes, self.len);
    }

    fn text(&self) -> &[u8]
        ensures { length result.now ≡ min self.now.len 256 }
    {
        &self.bytes[..self.len.min(LONGEST_LINE)]
    }

    // One that fills all that is held is too long.
    fn is_full(&self) -> bool
        ensures { result ≡ leb 256 self.now.len }
    {
        LONGEST_LINE <= self.len
    }
}

impl Feed {
    fn new() -> Feed {
        Feed {
            open: None,
            held: Held {
                bytes: [0; LONGEST_LINE],
                len: 0,
            },
        }
    }

    // The held line, closed. What is wrong with it is said.
    fn close_line<R: Print + Eprint>(&mut self, rt: &R) -> Result<(), Fault> {
        let taken = if self.held.is_full() {
            Err(Fault::TooLong)
        } else {
            take_line(rt, &mut self.open, self.held.text())
        };
        if let Err(fault) = taken
            && let Some(what) = fault.said()
        {
            say(rt, what, self.held.text());
        }
        self.held.len = 0;
        taken
    }

    // The lines of a piece of the file. Where it ends within a line, that line's start is held.
    fn take_piece<R: Print + Eprint>(&mut self, rt: &R, piece: &[u8]) -> Result<(), Fault> {
        for part in piece.split_inclusive(|b| *b == LINE_FEED) {
            match part {
                [text @ .., LINE_FEED] => {
                    self.held.push(text);
                    self.close_line(rt)?;
                }
                _ => self.held.push(part),
            }
        }
        Ok(())
    }

    // Whether the file ends where a block and a line do; where not, that is said.
    fn is_ended<R: Eprint>(&self, rt: &R) -> bool {
        if self.open.is_some() {
            say(rt, "the last block has no operation", b"");
        }
        if 0 < self.held.len {
            say(rt, "the last line is not closed", b"");
        }
        self.open.is_none() && self.held.len == 0
    }
}

// Kept: its own loop over the file: a turn can end in a Fault, and writes by itself.
fn take_all<R: Print + Eprint, S: Read>(rt: &R, source: &mut S) -> Result<Feed, Fault> {
    let mut feed = Feed::new();
    let mut piece = [0; PIECE];
    for _ in 0..files::TURNS {
        let got = files::take_piece(rt, source, &mut piece);
        match got.how {
            How::On => feed.take_piece(rt, &piece[..got.len])?,
            How::End => break,
            How::Failed => return Err(Fault::Failed),
        }
    }
    Ok(feed)
}

// Whether everything was answered; where not, why was said.
fn is_answered<R: Runtime>(rt: &R) -> bool {
    if !files::called_with(rt, 2, b"states FILE") {
        return false;
    }
    let Some(mut source) = files::open_argument(rt, 1) else {
        return false;
    };
    match take_all(rt, &mut source) {
        Ok(feed) => feed.is_ended(rt),
        Err(_) => false,
    }
}

fn main(rt: HostRuntime) -> ExitCode {
    files::exit_code(is_answered(&rt))
}
