// What is read: standard input, or a file that was opened by its name.

ghost use Rattle.std.specs.Prelude.{◌≡◌, IfOk};
ghost use Rattle.laws.specs.Quoted.{bytes};
ghost use Rattle.decimal.specs.Lines.{same};
ghost use Rattle.std.specs.Io.{ReadsAtMost};
ghost use Rattle.std.specs.Io.KnownBytes.{ReadConsumes};
ghost use Rattle.files.specs.Sources.{is_input, source_remaining};

use decimal::is_same;
use std::io::{Input, Read};
use std::rt::Files;
use std::{fs, io};

#[derive(Drop)]
pub enum Source<I, F> {
    Input(I),
    Named(F),
}

impl<I, F> Source<I, F> {
    pub fn is_input(&self) -> bool
        ensures { result ≡ is_input self.now }
    {
        match self {
            Source::Input(_) => true,
            Source::Named(_) => false,
        }
    }
}

impl<I: Read, F: Read> Read for Source<I, F> {
    ghost remaining = { source_remaining I.remaining F.remaining };

    fn read(&mut self, buf: &mut [u8]) -> io::Result<usize>
        ensures bound { ReadsAtMost result buf.new }
        ensures bytes { ReadConsumes (source_remaining I.remaining F.remaining self.old)
            (source_remaining I.remaining F.remaining self.new) result buf.new }
        ensures kept { is_input self.new ≡ is_input self.old }
    {
        match self {
            Source::Input(input) => input.read(buf),
            Source::Named(file) => file.read(buf),
        }
    }
}

// What a name stands for, `-` being standard input. A read of no bytes tells a directory.
pub(crate) fn open<R: Files + Input>(rt: &R, name: &str) -> io::Result<Source<R::Reader, R::File>>
    ensures { IfOk result (λ s. is_input s ≡ same name.now (bytes "-")) }
{
    let mut source = named(rt, name)?;
    source.read(&mut [])?;
    Ok(source)
}

fn named<R: Files + Input>(rt: &R, name: &str) -> io::Result<Source<R::Reader, R::File>>
    ensures { IfOk result (λ s. is_input s ≡ same name.now (bytes "-")) }
{
    if is_same(name.as_bytes(), b"-") {
        return Ok(Source::Input(rt.reader()));
    }
    Ok(Source::Named(fs::open(rt, name)?))
}
