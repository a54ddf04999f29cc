// Why an image is no script.
ghost use Rattle.std.specs.Prelude.{◌≡◌, Some};
ghost use Rattle.script.specs.Refusals.{told, raised};
ghost use Rattle.script.specs.RefusalWords.{unit_name, reason_words, refusal_text};

use std::error::Error;
use std::fmt;
use varint::number::Fault;

#[derive(Clone, Copy, PartialEq, Eq, Debug)]
pub enum ImageRefusal {
    // No number begins at the place.
    NoNumber(usize),
    // The bytes end, at the place, before the last operand.
    EndsEarly(usize),
    // A byte follows the last operand, at the place.
    GoesOn(usize),
    // The count of instructions is not 1 to 1,024.
    WrongCount,
    // No instruction has the code and operand at the address.
    WrongInstruction(usize),
    // A rule of names or frames breaks at the address.
    BrokenFrame(usize),
    // The end at the address has no block of its name.
    EndWithoutBlock(usize),
    // The jump at the address goes where it may not.
    WrongTarget(usize),
}

impl ImageRefusal {
    // The number by which users know the refusal, and the place or address that goes with it.
    pub fn number_and_position(self) -> (u32, usize)
        ensures { result ≡ told self }
    {
        match self {
            ImageRefusal::NoNumber(place) => (1, place),
            ImageRefusal::EndsEarly(place) => (2, place),
            ImageRefusal::GoesOn(place) => (2, place),
            ImageRefusal::WrongCount => (3, 0),
            ImageRefusal::WrongInstruction(address) => (3, address),
            ImageRefusal::BrokenFrame(address) => (4, address),
            ImageRefusal::EndWithoutBlock(address) => (4, address),
            ImageRefusal::WrongTarget(address) => (4, address),
        }
    }

    // What the position counts.
    fn unit(self) -> &'static str
        ensures { result.now ≡ unit_name self }
    {
        match self {
            ImageRefusal::NoNumber(_) | ImageRefusal::EndsEarly(_) | ImageRefusal::GoesOn(_) => {
                "byte"
            }
            _ => "address",
        }
    }

    fn reason(self) -> &'static str
        ensures { result.now ≡ reason_words self }
    {
        match self {
            ImageRefusal::NoNumber(_) => "no number begins here",
            ImageRefusal::EndsEarly(_) => "the bytes end before the last operand",
            ImageRefusal::GoesOn(_) => "bytes follow the last operand",
            ImageRefusal::WrongCount => "the count of instructions is not 1 to 1024",
            ImageRefusal::WrongInstruction(_) => "no instruction has this code and operand",
            ImageRefusal::BrokenFrame(_) => "a rule of names or frames is broken",
            ImageRefusal::EndWithoutBlock(_) => "no block has the name of this end",
            ImageRefusal::WrongTarget(_) => "this jump goes where it may not",
        }
    }
}

// Its number comes first. Only this one line is as a refused journal's; a place for both would be a crate below them for it alone.
impl fmt::Display for ImageRefusal {
    ghost output = { λ refusal. Some (refusal_text refusal) };

    fn fmt<W: fmt::Write>(&self, f: &mut fmt::Formatter<W>) -> fmt::Result {
        let (number, position) = self.number_and_position();
        let unit = self.unit();
        let reason = self.reason();
        write!(f, "{number} at {unit} {position}: {reason}")
    }
}

impl Error for ImageRefusal {}

// A fault of a number in an image; its place is kept. The cases are other ones than a journal's, so each has its table.
impl From<Fault> for ImageRefusal {
    ghost from_gives = { λ fault r. r ≡ raised fault };

    fn from(fault: Fault) -> ImageRefusal {
        match fault {
            Fault::Malformed(place) => ImageRefusal::NoNumber(place),
            Fault::Ended(place) => ImageRefusal::EndsEarly(place),
        }
    }
}
