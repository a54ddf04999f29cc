// Why there is nothing to show.
ghost use Rattle.std.specs.Prelude.{◌≡◌};
ghost use Rattle.program_input.specs.FailureWords.{failure_text};
ghost use Rattle.program_input.specs.declared.failure.Failure.TheVariants.{System, OutOfMemory};

use std::alloc::AllocError;
use std::error::Error;
use std::{fmt, io};

// R says why what was read is refused. By hand and not by thiserror, whose words and conversions have no contract.
#[derive(Debug, Drop)]
pub enum Failure<R> {
    // Words that ask for nothing; the program's usage answers them.
    Usage(&'static str),
    Unread(String, io::Error),
    Refused(R),
    System(io::Error),
    OutOfMemory,
}

impl<R> From<io::Error> for Failure<R> {
    ghost from_gives = { λ error r. r ≡ System error };

    fn from(error: io::Error) -> Failure<R> {
        Self::System(error)
    }
}

impl<R> From<AllocError> for Failure<R> {
    ghost from_gives = { λ _ r. r ≡ OutOfMemory };

    fn from(_error: AllocError) -> Failure<R> {
        Self::OutOfMemory
    }
}

impl<R: fmt::Display> fmt::Display for Failure<R> {
    ghost output = { failure_text R.output };

    fn fmt<W: fmt::Write>(&self, f: &mut fmt::Formatter<W>) -> fmt::Result {
        match self {
            Failure::Usage(usage) => f.write_str(usage),
            Failure::Unread(name, error) => write!(f, "{name}: {error}"),
            Failure::Refused(refusal) => write!(f, "{refusal}"),
            Failure::System(error) => write!(f, "{error}"),
            Failure::OutOfMemory => f.write_str("out of memory"),
        }
    }
}

impl<R: fmt::Debug + fmt::Display + Drop> Error for Failure<R> {}
