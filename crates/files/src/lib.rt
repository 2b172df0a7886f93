// Files as the programs take them: opened by argument, read whole or in pieces, and what is said
// where that fails. What the system answers no contract can say. What is made of its answer is
// decided by functions that call nothing of it, each an equation (specs/Answers.antt); the others
// only call, and hand on.

#![tactic(auto)]

pub mod given;
pub mod night;
pub mod pieces;
pub mod source;

ghost use Rattle.std.specs.Prelude.{◌≡◌, length, if◌then◌else◌};
ghost use Rattle.std.specs.Process.{exit_status};
ghost use Rattle.files.specs.Answers.{help_asked, Asked, Called, IsPrefixLen};
ghost use Rattle.files.specs.Answers.{how_of, Told, Out, First};
ghost use Rattle.files.specs.Sources.{Opened};

use decimal::is_same;
use source::Source;
use std::env::FillError;
use std::io::{ErrorKind, Input, Read};
use std::process::ExitCode;
use std::rt::{Env, Files};
use std::{io, str};

// A proved loop has to end, and nothing says that a file does: turns are counted up to a number that
// no file uses up.
pub const TURNS: u64 = u64::MAX;

// No path of the system is longer.
const LONGEST_WORD: usize = 4096;

// How a read or a write ended: it may go on, also where it was interrupted before it moved a byte;
// there is no more; or it failed.
// Kept: an enum of three, since io::Result cannot say that a read may go on.
#[derive(Clone, Copy, PartialEq, Eq)]
pub enum How {
    On,
    End,
    Failed,
}

// How many bytes were read or written, and how that ended.
// Kept: both always say something: bytes that were read stay read where the file ends, or fails.
#[derive(Clone, Copy)]
pub struct Taken {
    pub len: usize,
    pub how: How,
}

// How many words the program was called with, its name among them.
// Kept: the place of a word is what the system is asked by, and no list of them is held.
fn word_count<R: Env>(rt: &R) -> usize {
    let mut word = [0u8; LONGEST_WORD];
    for i in 0..usize::MAX {
        if let Err(FillError::NotPresent) = rt.arg(i, &mut word) {
            return i;
        }
    }
    usize::MAX
}

// Whether `--help` is the only word after the program's name.
#[tactic(auto, unfolding(crate::specs::Answers::help_asked))]
fn is_help(words: usize, first: &[u8]) -> bool
    ensures { result ≡ help_asked words first.now }
{
    if words != 2 {
        return false;
    }
    is_same(first, b"--help")
}

// Whether help was asked for.
#[tactic(auto, unfolding(crate::specs::Answers::help_asked))]
pub fn asked_for_help<R: Env>(rt: &R) -> bool
    ensures { Asked result }
{
    let words = word_count(rt);
    let mut first = [0u8; LONGEST_WORD];
    match rt.arg(1, &mut first) {
        Ok(n) => is_help(words, &first[..n]),
        Err(_) => false,
    }
}

// Whether the program was called with this many words, its name among them; if not, how to call it
// is said.
pub fn called_with<R: Env + Eprint>(rt: &R, words: usize, usage: &[u8]) -> bool
    ensures { Called words result }
{
    if word_count(rt) == words {
        return true;
    }
    let _ = match str::from_utf8(usage) {
        Ok(text) => eprintln!(rt; "usage: {text}"),
        Err(_) => eprintln!(rt; "usage: {}", usage.escape_ascii()),
    };
    false
}

// The file that argument i names, `-` being standard input. None where it cannot be opened or read,
// which is said by its name: a read of no bytes tells a directory.
pub fn open_argument<R: Env + Files + Input + Eprint>(
    rt: &R,
    i: usize,
) -> Option<Source<R::Reader, R::File>>
    ensures { Opened result }
{
    let mut word = [0u8; LONGEST_WORD];
    let Ok(n) = rt.arg(i, &mut word) else {
        let _ = eprintln!(rt; "argument: {}", ErrorKind::InvalidFilename);
        return None;
    };
    let Ok(name) = str::from_utf8(&word[..n]) else {
        let name = word[..n].escape_ascii();
        let _ = eprintln!(rt; "{name}: {}", ErrorKind::InvalidFilename);
        return None;
    };
    match source::open(rt, name) {
        Ok(source) => Some(source),
        Err(e) => {
            let _ = eprintln!(rt; "{name}: {e}");
            None
        }
    }
}

// How a call that moves bytes ended, by what it answered.
// Kept: how_of looks at what take_piece then takes; as a From of a loan it reads no plainer.
fn how_of(got: &io::Result<usize>) -> How
    ensures { result ≡ how_of got.now }
{
    match got {
        Ok(0) => How::End,
        Ok(_) => How::On,
        Err(e) => match e.kind() {
            ErrorKind::Interrupted => How::On,
            _ => How::Failed,
        },
    }
}

// The next piece of a file. Where it cannot be read, that is said.
pub fn take_piece<R: Eprint, S: Read>(rt: &R, source: &mut S, buf: &mut [u8]) -> Taken
    ensures prefix_len { IsPrefixLen result.len buf.new }
    ensures told { Told (length buf.new) result }
{
    let got = source.read(buf);
    let how = how_of(&got);
    match got {
        Ok(len) => Taken { len, how },
        Err(e) => {
            if let How::Failed = how {
                let _ = eprintln!(rt; "read: {e}");
            }
            Taken { len: 0, how }
        }
    }
}

// What of a file fits the lent bytes. How the last read ended says whether that is all of it.
// Kept: here and in write_out a turn moves as many bytes as the system says, which `at` adds up.
pub fn take_whole<R: Eprint, S: Read>(rt: &R, source: &mut S, buf: &mut [u8]) -> Taken
    ensures { IsPrefixLen result.len buf.new }
{
    let mut at = 0;
    for _ in 0..TURNS {
        if at == buf.len() {
            break;
        }
        let got = take_piece(rt, source, &mut buf[at..]);
        if got.how != How::On {
            return Taken {
                len: at,
                how: got.how,
            };
        }
        at += got.len;
    }
    Taken {
        len: at,
        how: How::On,
    }
}

// Whether all of the text was written to standard output; if not, that is said.
pub fn write_out<R: Print + Eprint>(rt: &R, text: &[u8]) -> bool
    ensures { Out (length text.now) result }
{
    let mut at = 0;
    for _ in 0..TURNS {
        if at == text.len() {
            break;
        }
        let got = rt.write_some(&text[at..]);
        let How::On = how_of(&got) else {
            say_unwritten(rt, got);
            return false;
        };
        at += got.unwrap_or(0);
    }
    at == text.len()
}

// A write that took no byte has failed too.
fn say_unwritten<R: Eprint>(rt: &R, got: io::Result<usize>) {
    let _ = match got {
        Ok(_) => eprintln!(rt; "write: {}", ErrorKind::WriteZero),
        Err(e) => eprintln!(rt; "write: {e}"),
    };
}

// The same of the first n bytes of some room.
// Kept: a room and how much of it is in use, for there is no heap (docs/FUNCTIONS.md has its name).
pub fn write_first<R: Print + Eprint>(rt: &R, room: &[u8], n: usize) -> bool
    ensures { First (length room.now) n result }
{
    if room.len() < n {
        return false;
    }
    write_out(rt, &room[..n])
}

// The exit status of a program: 0 where everything was answered, else 1.
pub fn exit_code(answered: bool) -> ExitCode
    ensures { exit_status result ≡ (if answered then 0 else 1) }
{
    if answered {
        ExitCode::SUCCESS
    } else {
        ExitCode::FAILURE
    }
}
