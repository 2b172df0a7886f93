// Why the program ends before its file does.

ghost use Rattle.std.specs.Prelude.{◌≡◌};
ghost use Rattle.states.specs.declared.fault.Fault.TheVariants.{NotInFormat, Failed};

use crate::line::Broken;
use std::io;

#[derive(Clone, Copy)]
pub enum Fault {
    NotInFormat,
    NoBlock,
    TooLong,
    Failed,
}

impl From<Broken> for Fault {
    ghost from_gives = { λ _ fault. fault ≡ NotInFormat };

    fn from(_why: Broken) -> Fault {
        Fault::NotInFormat
    }
}

// No answer is longer than the room that it is put in: it is not told apart.
impl From<io::Error> for Fault {
    ghost from_gives = { λ _ fault. fault ≡ Failed };

    fn from(_why: io::Error) -> Fault {
        Fault::Failed
    }
}

impl Fault {
    // What is said of a line. That a read or a write failed, crate files has said.
    pub(crate) fn said(self) -> Option<&'static str> {
        match self {
            Fault::NotInFormat => Some("not in the format: "),
            Fault::NoBlock => Some("no block before: "),
            Fault::TooLong => Some("too long: "),
            Fault::Failed => None,
        }
    }
}
