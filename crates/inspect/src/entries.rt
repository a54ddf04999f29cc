// The entries that bytes hold.
ghost use Rattle.inspect.specs.Found.{Found};

use batch::into_entries;
use journal::entry::Entry;
use journal::refusal::LayRefusal;
use packed_journal::PackedJournal;
use program_input::failure::Failure;
use std::alloc::Global;

// The entries of the journal that lies in all of the bytes, the newest first.
pub fn entries_in(heap: Global, bytes: &mut [u8]) -> Result<Vec<Entry>, Failure<LayRefusal>>
    ensures { Found bytes.old result }
{
    let used = bytes.len();
    // no map_err: no proof is made yet of a closure that is handed lent bytes back
    match PackedJournal::lay(bytes, used) {
        Ok(journal) => Ok(into_entries(journal, heap)?),
        Err(refused) => Err(Failure::Refused(refused.refusal)),
    }
}
