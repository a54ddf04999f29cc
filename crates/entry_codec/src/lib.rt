// An entry in bytes: owner, kind and folded number as numbers of seven-bit groups.
#![tactic(auto)]

ghost use Rattle.std.specs.Prelude.{◌≡◌, ◌+◌, ◌≤◌, length, IfOk};
ghost use Rattle.varint.specs.Written.{Wrote};
ghost use Rattle.varint.specs.Readings.{number_at};
ghost use Rattle.entry_codec.specs.Reading.{owner_of, PartRead, entry_at};
ghost use Rattle.entry_codec.specs.Writing.{entry_bytes, EntryReadBack};

use journal::entry::{Entry, MOST_OWNER};
use journal::kind::Kind;
use journal::refusal::LayRefusal;
use varint::number::{NoRoom, read, size, write};
use varint::zigzag::{fold, unfold};

// A part of an entry, whose number begins at a place, and the place after it. `meaning` says what a number stands for, if for anything.
fn read_part<T: Drop, F: FnOnce(u32) -> Option<T>>(
    bytes: &[u8],
    at: usize,
    meaning: F,
) -> Result<(T, usize), LayRefusal>
    requires { F.IsAlwaysCallable meaning }
    ensures { PartRead (F.post meaning) at (number_at bytes.now at) result }
{
    let (number, end) = read(bytes, at)?;
    let part = meaning(number).ok_or(LayRefusal::WrongNumber(at))?;
    Ok((part, end))
}

fn owner_of(number: u32) -> Option<u16>
    ensures { result ≡ owner_of number }
{
    match u16::try_from(number) {
        Ok(owner @ ..=MOST_OWNER) => Some(owner),
        _ => None,
    }
}

// The entry that begins at a place, and the place after it.
pub fn read_entry(bytes: &[u8], at: usize) -> Result<(Entry, usize), LayRefusal>
    ensures { result ≡ entry_at bytes.now at }
{
    let (owner, kind_at) = read_part(bytes, at, owner_of)?;
    let (kind, number_at) = read_part(bytes, kind_at, |number| Kind::try_from(number).ok())?;
    let (number, end) = read_part(bytes, number_at, |folded| Some(unfold(folded)))?;
    let entry = Entry {
        owner,
        kind,
        number,
    };
    Ok((entry, end))
}

fn entry_size(entry: Entry) -> usize
    ensures { result ≡ length (entry_bytes entry) }
{
    size(u32::from(entry.owner)) + size(u32::from(entry.kind)) + size(fold(entry.number))
}

fn put_entry(bytes: &mut [u8], at: usize, entry: Entry) -> Result<usize, NoRoom>
    requires { at + length (entry_bytes entry) ≤ length bytes.old }
    ensures answer { Wrote bytes.old at (entry_bytes entry) result bytes.new }
    ensures back { IfOk result (λ end. EntryReadBack bytes.new at entry end) }
{
    let kind_at = write(bytes, at, u32::from(entry.owner))?;
    let number_at = write(bytes, kind_at, u32::from(entry.kind))?;
    write(bytes, number_at, fold(entry.number))
}

// Writes an entry from a place on, and answers the place after it; where it does not fit, nothing is written.
// The test is that of `write` over another size: a function for both would be as long as the two lines.
pub fn write_entry(bytes: &mut [u8], at: usize, entry: Entry) -> Result<usize, NoRoom>
    ensures answer { Wrote bytes.old at (entry_bytes entry) result bytes.new }
    ensures back { IfOk result (λ end. EntryReadBack bytes.new at entry end) }
{
    let room = bytes.len();
    if at > room || room - at < entry_size(entry) {
        return Err(NoRoom);
    }
    put_entry(bytes, at, entry)
}
