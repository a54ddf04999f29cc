// A journal over a lent table, with one entry in each place.
#![tactic(auto)]

ghost use Rattle.std.specs.Prelude.{◌≡◌, ◌≤◌, [], ◌∷◌, length, OnErr, OnOk, slice_set};
ghost use Rattle.journal.specs.Meaning.{push_answer, pushed, newest_of, older_of};

use journal::entry::Entry;
use journal::journal::{Full, Journal};

// The oldest entry stands in place 0; the places from len on are free.
// The table is lent, so what is used of it is a count beside it and no vector.
#[derive(Drop)]
pub struct SlotJournal<'a> {
    slots: &'a mut [Entry],
    len: usize,
    ghost within: { len ≤ length slots.now },
}

// The newest entry and where it stands. A packed journal's `Last` is another pair: each is private to its crate.
#[derive(Clone, Copy, PartialEq, Eq, Debug)]
struct Newest {
    entry: Entry,
    place: usize,
}

impl<'a> SlotJournal<'a> {
    ghost use Rattle.slot_journal.specs.Slots.{places_enough, NewestPlace, table_of, list_of, rule_of};

    // The journal over the table, with no entry in it yet.
    pub fn new(slots: &'a mut [Entry]) -> SlotJournal<'a>
        ensures empty { list_of result ≡ [] }
        ensures rule { rule_of result ≡ places_enough slots.old }
        ensures untouched { table_of result ≡ slots.old }
    {
        SlotJournal { slots, len: 0 }
    }

    fn last(&self) -> Option<Newest>
        ensures { NewestPlace (table_of self.now) self.now.len result }
    {
        let place = self.len.checked_sub(1)?;
        Some(Newest {
            entry: self.slots[place],
            place,
        })
    }
}

impl<'a> Journal for SlotJournal<'a> {
    ghost use Rattle.slot_journal.specs.Slots.{table_of, list_of, rule_of};

    ghost entries = { list_of };

    ghost fits = { rule_of };

    // As the trait has it, whose clauses these take the place of; and only the place of the entry is written.
    fn push(&mut self, entry: Entry) -> Result<(), Full>
        ensures answer { result ≡ push_answer (rule_of self.old) (list_of self.old) entry }
        ensures list { list_of self.new ≡ pushed (rule_of self.old) (list_of self.old) entry }
        ensures rule { rule_of self.new ≡ rule_of self.old }
        ensures full { OnErr result (self.new ≡ self.old) }
        ensures places { OnOk result (table_of self.new ≡ slice_set (table_of self.old) self.old.len entry) }
    {
        if self.len == self.slots.len() {
            return Err(Full);
        }
        self.slots[self.len] = entry;
        self.len += 1;
        Ok(())
    }

    fn newest(&self) -> Option<Entry> {
        Some(self.last()?.entry)
    }

    // As the trait has it, whose clauses these take the place of; and the table keeps its contents.
    fn pop(&mut self) -> Option<Entry>
        ensures answer { result ≡ newest_of (list_of self.old) }
        ensures list { list_of self.new ≡ older_of (list_of self.old) }
        ensures rule { rule_of self.new ≡ rule_of self.old }
        ensures places { table_of self.new ≡ table_of self.old }
    {
        let last = self.last()?;
        self.len = last.place;
        Some(last.entry)
    }
}
