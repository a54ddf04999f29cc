// Who an entry belongs to, in words.
ghost use Rattle.std.specs.Prelude.{◌≡◌, Some};
ghost use Rattle.report.specs.Words.{owner_of, owner_text};

use journal::entry::Entry;
use journal::kind::Kind;
use std::fmt;

// A process by its number, or a row; processes come before rows.
#[derive(Clone, Copy, PartialEq, Eq, PartialOrd, Ord, Debug)]
pub enum Owner {
    Process(u16),
    Row(u16),
}

// An Enter entry belongs to a row, each other one to a process.
impl From<&Entry> for Owner {
    ghost from_gives = { λ entry owner. owner ≡ owner_of entry.now };

    fn from(entry: &Entry) -> Owner {
        match entry.kind {
            Kind::Enter => Owner::Row(entry.owner),
            _ => Owner::Process(entry.owner),
        }
    }
}

impl fmt::Display for Owner {
    ghost output = { λ owner. Some (owner_text owner) };

    fn fmt<W: fmt::Write>(&self, f: &mut fmt::Formatter<W>) -> fmt::Result {
        match *self {
            Owner::Process(number) => write!(f, "process {number}"),
            Owner::Row(number) => write!(f, "row {number}"),
        }
    }
}
