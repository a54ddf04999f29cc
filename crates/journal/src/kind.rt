// The kinds of entries and their numbers.
ghost use Rattle.std.specs.Prelude.{◌≡◌, Some};
ghost use Rattle.journal.specs.Kinds.{kind_number, kind_of, KindOrUnknown};
ghost use Rattle.journal.specs.KindNames.{kind_name};

use std::fmt;

// What an entry records.
#[derive(Clone, Copy, PartialEq, Eq, Debug)]
pub enum Kind {
    Run = 1,
    Done = 2,
    Enter = 3,
    Store = 4,
    Jump = 5,
    Alloc = 6,
    Free = 7,
    Fork = 8,
    Merge = 9,
}

// A number that stands for no kind.
#[derive(Clone, Copy, PartialEq, Eq, Debug)]
pub struct UnknownKind(pub u32);

// The number that stands for the kind in bytes.
impl From<Kind> for u32 {
    ghost from_gives = { λ kind number. (number ≡ kind_number kind) × (kind_of number ≡ Some kind) };

    fn from(kind: Kind) -> u32 {
        kind as u32
    }
}

// The kind of a number, if there is one.
impl TryFrom<u32> for Kind {
    type Error = UnknownKind;

    ghost try_from_gives = { KindOrUnknown };

    fn try_from(number: u32) -> Result<Kind, UnknownKind> {
        match number {
            1 => Ok(Kind::Run),
            2 => Ok(Kind::Done),
            3 => Ok(Kind::Enter),
            4 => Ok(Kind::Store),
            5 => Ok(Kind::Jump),
            6 => Ok(Kind::Alloc),
            7 => Ok(Kind::Free),
            8 => Ok(Kind::Fork),
            9 => Ok(Kind::Merge),
            _ => Err(UnknownKind(number)),
        }
    }
}

impl fmt::Display for Kind {
    ghost output = { λ kind. Some (kind_name kind) };

    fn fmt<W: fmt::Write>(&self, f: &mut fmt::Formatter<W>) -> fmt::Result {
        f.write_str(match self {
            Kind::Run => "Run",
            Kind::Done => "Done",
            Kind::Enter => "Enter",
            Kind::Store => "Store",
            Kind::Jump => "Jump",
            Kind::Alloc => "Alloc",
            Kind::Free => "Free",
            Kind::Fork => "Fork",
            Kind::Merge => "Merge",
        })
    }
}
