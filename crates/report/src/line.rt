// The lines for entries.
ghost use Rattle.std.specs.Prelude.{◌≡◌, IfOk, Some};
ghost use Rattle.report.specs.Numbering.{lines_of};
ghost use Rattle.report.specs.Words.{kind_words, has_number, number_text, line_text};

use crate::owner::Owner;
use journal::entry::Entry;
use journal::kind::Kind;
use std::alloc::{AllocError, Global};
use std::fmt;

// An entry and its position; the oldest entry has position 1.
#[derive(Clone, Copy, PartialEq, Eq, Debug)]
pub struct Line {
    pub position: usize,
    pub entry: Entry,
}

// The lines for a journal's entries, the newest first as they are. Positions go down, so this is no numbering from 1 on.
pub fn lines(heap: Global, entries: &[Entry]) -> Result<Vec<Line>, AllocError>
    ensures { IfOk result (λ v. v.items ≡ lines_of entries.now) }
{
    let mut lines = Vec::new(heap);
    for entry in entries {
        let position = entries.len() - lines.len();
        lines.push(Line {
            position,
            entry: *entry,
        })?;
    }
    Ok(lines)
}

impl fmt::Display for Line {
    ghost output = { λ line. Some (line_text line.position line.entry) };

    fn fmt<W: fmt::Write>(&self, f: &mut fmt::Formatter<W>) -> fmt::Result {
        let position = self.position;
        let owner = Owner::from(&self.entry);
        let kind = self.entry.kind;
        let words = kind_words(kind);
        let number = Number {
            kind,
            number: self.entry.number,
        };
        write!(f, "{position}  {owner}  {kind}  {words}{number}")
    }
}

// What an entry of the kind says. A function: the one `Display` of a kind is its name.
fn kind_words(kind: Kind) -> &'static str
    ensures { result.now ≡ kind_words kind }
{
    match kind {
        Kind::Run => "run started",
        Kind::Done => "run finished",
        Kind::Enter => "old figure",
        Kind::Store => "old value",
        Kind::Jump => "came from address",
        Kind::Alloc => "variable declared",
        Kind::Free => "freed value",
        Kind::Fork => "branches started",
        Kind::Merge => "branches merged",
    }
}

// Whether the number of an entry of the kind means something.
fn has_number(kind: Kind) -> bool
    ensures { result ≡ has_number kind }
{
    matches!(kind, Kind::Enter | Kind::Store | Kind::Jump | Kind::Free)
}

// The number of an entry of a kind.
#[derive(Clone, Copy)]
struct Number {
    kind: Kind,
    number: i32,
}

impl fmt::Display for Number {
    ghost output = { λ n. Some (number_text (has_number n.kind) n.number) };

    fn fmt<W: fmt::Write>(&self, f: &mut fmt::Formatter<W>) -> fmt::Result {
        let number = self.number;
        if has_number(self.kind) {
            write!(f, " {number}")
        } else if number == 0 {
            Ok(())
        } else {
            write!(f, " (number {number})")
        }
    }
}
