// The contract of every journal.
ghost use Rattle.std.specs.Prelude.{◌≡◌, Bool, List, OnErr};
ghost use Rattle.journal.specs.declared.entry.Entry.{Entry};
ghost use Rattle.journal.specs.Meaning.{push_answer, pushed, newest_of, older_of};

use crate::entry::Entry;

// The answer of a push that found no room.
#[derive(Clone, Copy, PartialEq, Eq, Debug)]
pub struct Full;

// A journal means a list of entries, the newest first, and a capacity rule that says of every list whether it fits.
// No call alters the rule, and a push that is refused alters nothing.
pub trait Journal {
    ghost entries: { Self → List Entry };

    ghost fits: { Self → List Entry → Bool };

    // Adds an entry if the longer list fits.
    fn push(&mut self, entry: Entry) -> Result<(), Full>
        ensures answer { result ≡ push_answer (fits self.old) (entries self.old) entry }
        ensures list { entries self.new ≡ pushed (fits self.old) (entries self.old) entry }
        ensures rule { fits self.new ≡ fits self.old }
        ensures full { OnErr result (self.new ≡ self.old) };

    // The newest entry.
    fn newest(&self) -> Option<Entry>
        ensures { result ≡ newest_of (entries self.now) };

    // The newest entry, which is taken away.
    fn pop(&mut self) -> Option<Entry>
        ensures answer { result ≡ newest_of (entries self.old) }
        ensures list { entries self.new ≡ older_of (entries self.old) }
        ensures rule { fits self.new ≡ fits self.old };
}
