// A block that is open, and the operations that end one.

use crate::frame_block::FrameBlock;
use crate::line::{Broken, Fields};
use crate::table_block::TableBlock;
use events::Event;
use table::Mode;

#[derive(Clone, Copy)]
pub enum Block {
    OfTable(TableBlock),
    OfFrame(FrameBlock),
}

impl Block {
    // "A block begins with its `table` line", or with its `frame` line.
    // Kept: word and fields apart: the word says who reads the fields behind it.
    pub(crate) fn opened(word: &[u8], fields: &mut Fields) -> Result<Block, Broken> {
        match word {
            b"table" => Ok(Block::OfTable(TableBlock::opened(fields)?)),
            b"frame" => Ok(Block::OfFrame(FrameBlock::opened(fields)?)),
            _ => Err(Broken),
        }
    }

    // A line that is no operation, but the first. "The two kinds do not mix."
    pub(crate) fn take_row(&mut self, word: &[u8], fields: &mut Fields) -> Result<(), Broken> {
        match self {
            Block::OfTable(b) => b.take_row(word, fields),
            Block::OfFrame(b) => b.take_row(word, fields),
        }
    }
}

#[derive(Clone, Copy)]
pub enum Operation {
    OfEither(Step),
    OfTable(Question),
}

// What a block of either kind may end with.
#[derive(Clone, Copy)]
pub enum Step {
    Fresh,
    Event(Event),
}

// What a table block alone may end with.
#[derive(Clone, Copy)]
pub enum Question {
    Verdict(usize, Mode),
    Fits,
    RunFits,
    Write(usize),
}

// The operation that a line names, if it does.
pub(crate) fn operation_of(word: &[u8], fields: &mut Fields) -> Result<Option<Operation>, Broken> {
    let asked = match word {
        b"fresh" => Operation::OfEither(Step::Fresh),
        b"release" => Operation::OfEither(Step::Event(Event::Release(fields.number()?))),
        b"tick" => Operation::OfEither(Step::Event(Event::Tick(fields.flag()?))),
        b"verdict" => Operation::OfTable(Question::Verdict(fields.number()?, fields.mode()?)),
        b"fits" => Operation::OfTable(Question::Fits),
        b"fits_state" => Operation::OfTable(Question::RunFits),
        b"write" => Operation::OfTable(Question::Write(fields.number()?)),
        _ => return Ok(None),
    };
    Ok(Some(asked))
}
