// The newest entry, found from the used end.
ghost use Rattle.std.specs.Prelude.{◌≡◌, ℕ, ◌<◌, ◌≤◌, length, slice_index, IfNone, IfSome};
ghost use Rattle.packed_journal.specs.Packing.{last_entry};

use entry_codec::read_entry;
use journal::entry::Entry;

// An entry that ends at the end of bytes, and where it begins: named, since the readers' pairs have the place after an entry.
// One type for this and a slot journal's `Newest` would be a public name for two private uses.
#[derive(Clone, Copy, PartialEq, Eq, Debug)]
pub struct Last {
    pub entry: Entry,
    pub start: usize,
}

// Where the number that ends at a place begins: only a first byte is below 128.
fn start_before(bytes: &[u8], end: usize) -> Option<usize>
    requires { end ≤ length bytes.now }
    ensures none { IfNone result ((k : ℕ) → k < end → 128 ≤ slice_index bytes.now k) }
    ensures last { IfSome result (λ start. (start < end) × (slice_index bytes.now start < 128) × ((k : ℕ) → start < k → k < end → 128 ≤ slice_index bytes.now k)) }
{
    bytes[..end].iter().rposition(|byte| *byte < 128)
}

// The entry that ends where the bytes end.
#[tactic(auto, unfolding(crate::specs::Packing::last_entry), using(crate::proofs::Lasts::last_found))]
pub fn last_entry(bytes: &[u8]) -> Option<Last>
    ensures { result ≡ last_entry bytes.now }
{
    let number = start_before(bytes, bytes.len())?;
    let kind = start_before(bytes, number)?;
    let start = start_before(bytes, kind)?;
    let (entry, _) = read_entry(bytes, start).ok()?;
    Some(Last { entry, start })
}
