// A line of the format: a word and then numbers, parted by tabs. Its fields are read one after
// another, each as what it stands for.

ghost use Rattle.std.specs.Prelude.{◌≡◌, ◌<◌, ◌^◌, ◌↔◌};
ghost use Rattle.std.specs.Prelude.{is_none, IsOk, IsSome, IsNone, IfOk, Contains};

use decimal::TAB;
use table::{ByMode, Mode};
use units::{Micros, Ticks};

// A line breaks the format.
#[derive(Clone, Copy)]
pub struct Broken;

// What of a line is not read yet: nothing behind its last field.
#[derive(Clone, Copy)]
pub struct Fields<'a> {
    rest: Option<&'a [u8]>,
}

impl<'a> Fields<'a> {
    pub(crate) fn of(line: &'a [u8]) -> Fields<'a>
        ensures { IsSome result.rest }
    {
        Fields { rest: Some(line) }
    }

    pub(crate) fn text(&mut self) -> Result<&'a [u8], Broken>
        ensures { IsOk result ↔ IsSome self.old.rest }
    {
        let rest = self.rest.ok_or(Broken)?;
        let end = decimal::find(rest, 0, TAB);
        self.rest = rest.get(end + 1..);
        Ok(&rest[..end])
    }

    // A number that its type holds.
    pub(crate) fn number<T: TryFrom<u64>>(&mut self) -> Result<T, Broken>
    where
        T::Error: Drop,
        ensures { IsOk result → IsSome self.old.rest }
    {
        let number = decimal::read_number(self.text()?).ok_or(Broken)?;
        T::try_from(number).map_err(|_| Broken)
    }

    // One of a closed set, which are numbered from 0 on: "another number breaks the format".
    pub(crate) fn one_of<T: Copy, const N: usize>(&mut self, all: [T; N]) -> Result<T, Broken>
        ensures { IfOk result (Contains all) }
    {
        let number: usize = self.number()?;
        all.get(number).copied().ok_or(Broken)
    }

    pub(crate) fn flag(&mut self) -> Result<bool, Broken> {
        self.one_of([false, true])
    }

    pub(crate) fn mode(&mut self) -> Result<Mode, Broken> {
        Ok(table::mode_said(self.one_of([0, 1, 2])?))
    }

    // How many rows are in use, or one of them.
    pub(crate) fn row(&mut self) -> Result<usize, Broken>
        ensures { IfOk result (λ row. row < 2 ^ 32) }
    {
        let row: u32 = self.number()?;
        Ok(row as usize)
    }

    pub(crate) fn micros(&mut self) -> Result<Micros, Broken>
        ensures { IfOk result (λ micros. micros.0 < 2 ^ 32) }
    {
        let micros: u32 = self.number()?;
        Ok(Micros(u64::from(micros)))
    }

    pub(crate) fn ticks(&mut self) -> Result<Ticks, Broken> {
        Ok(Ticks(self.number()?))
    }

    // "in N, D1, D2"
    pub(crate) fn by_mode(&mut self) -> Result<ByMode<Ticks>, Broken> {
        Ok(ByMode {
            n: self.ticks()?,
            d1: self.ticks()?,
            d2: self.ticks()?,
        })
    }

    pub(crate) fn is_read(&self) -> bool
        ensures { result ≡ is_none self.now.rest }
    {
        self.rest.is_none()
    }

    // No field is left.
    pub(crate) fn end(&self) -> Result<(), Broken>
        ensures { IsOk result ↔ IsNone self.now.rest }
    {
        if self.is_read() { Ok(()) } else { Err(Broken) }
    }
}
