// Reading used bytes through before a journal is laid on them.
ghost use Rattle.packed_journal.specs.Laying.{ReadOn};

use entry_codec::read_entry;
use journal::refusal::LayRefusal;

// Whether the bytes are entries one after another.
pub fn read_through(bytes: &[u8]) -> Result<(), LayRefusal>
    ensures { ReadOn bytes.now result }
{
    let mut at = 0;
    // each turn goes on where the entry that it read ends, so no iterator counts the places
    while at < bytes.len() {
        (_, at) = read_entry(bytes, at)?;
    }
    Ok(())
}
