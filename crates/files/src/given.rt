// The table that a program is given: read, or answered as refused. Every kind of table is taken so
// that is read from a text.

ghost use Rattle.files.specs.Answers.{Out};
ghost use Rattle.files.specs.Handed.{is_failed, given_by, Handed, Said};
ghost use Rattle.std.specs.Prelude.{◌≡◌};

use crate::How;
use lines::LONGEST_ANSWER;
use reader::FromText;
use std::io::Read;
use text::{LONGEST_TEXT, ReadError};

// One byte more than a text may have, so that a longer file shows.
pub const ROOM: usize = LONGEST_TEXT + 1;

// Whether a file could not be read.
pub fn is_failed(how: How) -> bool
    ensures { result ≡ is_failed how }
{
    how == How::Failed
}

// What is given by a file that was read so, with this text: none where it could not be read.
fn given_of<T: FromText>(how: How, text: &[u8]) -> Option<Result<T, ReadError>>
    ensures { result ≡ given_by T.read_of how text.now }
{
    if is_failed(how) {
        return None;
    }
    Some(T::from_text(text))
}

// "A refused table prints only" its one line. The table of a text that is taken; of a refused one,
// whether all that there is to print was written.
pub fn say_refused<R: Print + Eprint, T>(rt: &R, read: Result<T, ReadError>) -> Result<T, bool>
    ensures { Said read result }
{
    match read {
        Ok(table) => Ok(table),
        Err(why) => {
            let mut line = [0u8; LONGEST_ANSWER];
            let n = printer::put_refused(Err(why), &mut line, 0);
            Err(crate::write_first(rt, &line, n))
        }
    }
}

// The table in an open file, or why its text is none; none where the file could not be read.
pub fn take_table<R: Eprint, S: Read, T: FromText>(
    rt: &R,
    source: &mut S,
) -> Option<Result<T, ReadError>>
    ensures { Handed T.read_of result }
{
    let mut buf = [0u8; ROOM];
    let got = crate::take_whole(rt, source, &mut buf);
    given_of(got.how, &buf[..got.len])
}
