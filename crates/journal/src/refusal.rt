// Why a journal cannot be laid.
ghost use Rattle.std.specs.Prelude.{◌≡◌, Some};
ghost use Rattle.journal.specs.Refusals.{told, raised};
ghost use Rattle.journal.specs.RefusalWords.{unit_name, reason_words, refusal_text};

use std::error::Error;
use std::fmt;
use varint::number::Fault;

#[derive(Clone, Copy, PartialEq, Eq, Debug)]
pub enum LayRefusal {
    // No number that can stand there begins at the place.
    WrongNumber(usize),
    // The used bytes end, at the place, within an entry.
    MissingNumber(usize),
    // More bytes are said to be used than there are; the place is where they end.
    UsedBeyondEnd(usize),
    // A layer wants an empty journal beneath it.
    EntryBeneath,
}

impl LayRefusal {
    // The number by which users know the refusal, and the place that goes with it.
    pub fn number_and_place(self) -> (u32, usize)
        ensures { result ≡ told self }
    {
        match self {
            LayRefusal::WrongNumber(place) => (14, place),
            LayRefusal::MissingNumber(place) => (14, place),
            LayRefusal::UsedBeyondEnd(place) => (14, place),
            LayRefusal::EntryBeneath => (14, 0),
        }
    }

    // What the place counts.
    fn unit(self) -> &'static str
        ensures { result.now ≡ unit_name self }
    {
        match self {
            LayRefusal::EntryBeneath => "",
            _ => "byte ",
        }
    }

    fn reason(self) -> &'static str
        ensures { result.now ≡ reason_words self }
    {
        match self {
            LayRefusal::WrongNumber(_) => "no valid part of an entry begins here",
            LayRefusal::MissingNumber(_) => "the used bytes end within an entry",
            LayRefusal::UsedBeyondEnd(_) => "more bytes are said to be used than there are",
            LayRefusal::EntryBeneath => "there is an entry beneath",
        }
    }
}

// Its number comes first.
impl fmt::Display for LayRefusal {
    ghost output = { λ refusal. Some (refusal_text refusal) };

    fn fmt<W: fmt::Write>(&self, f: &mut fmt::Formatter<W>) -> fmt::Result {
        let (number, place) = self.number_and_place();
        let unit = self.unit();
        let reason = self.reason();
        write!(f, "{number} at {unit}{place}: {reason}")
    }
}

impl Error for LayRefusal {}

// A fault of a number in a journal's bytes; its place is kept.
impl From<Fault> for LayRefusal {
    ghost from_gives = { λ fault r. r ≡ raised fault };

    fn from(fault: Fault) -> LayRefusal {
        match fault {
            Fault::Malformed(place) => LayRefusal::WrongNumber(place),
            Fault::Ended(place) => LayRefusal::MissingNumber(place),
        }
    }
}

// What was to bear a journal or a layer, handed back as it was.
#[derive(Drop)]
pub struct Refused<T> {
    pub back: T,
    pub refusal: LayRefusal,
}
