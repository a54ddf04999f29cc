// Whole lists of entries through any journal.
#![tactic(auto)]

ghost use Rattle.std.specs.Prelude.{◌≡◌, IfOk};
ghost use Rattle.batch.specs.Runs.{longest_run, recorded};

use journal::entry::Entry;
use journal::journal::Journal;
use std::alloc::{AllocError, Global};

// Pushes the entries in their order until one does not fit, and answers how many were pushed.
pub fn record_until_full<J: Journal>(journal: &mut J, batch: &[Entry]) -> usize
    ensures count { result ≡ longest_run (J.fits journal.old) (J.entries journal.old) batch.now }
    ensures list { J.entries journal.new ≡ recorded (J.fits journal.old) (J.entries journal.old) batch.now }
    ensures rule { J.fits journal.new ≡ J.fits journal.old }
{
    for (pushed, entry) in batch.iter().enumerate() {
        if journal.push(*entry).is_err() {
            return pushed;
        }
    }
    batch.len()
}

// Takes the journal apart, the newest entry first.
pub fn into_entries<J: Journal + Drop>(
    mut journal: J,
    heap: Global,
) -> Result<Vec<Entry>, AllocError>
    ensures { IfOk result (λ v. v.items ≡ J.entries journal) }
{
    let mut list = Vec::new(heap);
    while let Some(entry) = journal.pop() {
        list.push(entry)?;
    }
    Ok(list)
}
