// A journal in lent bytes, the oldest entry first.
#![tactic(auto)]

ghost use Rattle.std.specs.Prelude.{◌≡◌, ◌≤◌, length, take, IfOk, IfErr, Err, OnErr, OnOk};
ghost use Rattle.journal.specs.Meaning.{push_answer, pushed, newest_of, older_of};
ghost use Rattle.varint.specs.Written.{Written};
ghost use Rattle.entry_codec.specs.Writing.{entry_bytes};
ghost use Rattle.packed_journal.specs.Packing.{packed, shown};
ghost use Rattle.packed_journal.specs.Laying.{laid, Asked, YieldEachOtherBack, OneWriting};

use entry_codec::write_entry;
use journal::entry::Entry;
use journal::journal::{Full, Journal};
use journal::refusal::{LayRefusal, Refused};
use last::{Last, last_entry};
use laying::read_through;

mod last;
mod laying;

// Entries in lent bytes, of which the first `used` hold them. The bytes are lent, so the count stands beside them.
#[derive(Drop)]
pub struct PackedJournal<'a> {
    bytes: &'a mut [u8],
    used: usize,
    ghost within: { used ≤ length bytes.now },
    // the used bytes are the writing of the entries that they hold
    ghost own: { take used bytes.now ≡ packed (shown used bytes.now) },
}

// Whether a journal can be laid on bytes of which the first `used` hold entries already.
#[tactic(auto, using(crate::proofs::Layings::yield_each_other_back, crate::proofs::Layings::one_writing))]
pub fn ask(bytes: &[u8], used: usize) -> Result<(), LayRefusal>
    ensures answer { Asked bytes.now used result }
    ensures back { YieldEachOtherBack }
    ensures unique { OneWriting }
{
    if used > bytes.len() {
        return Err(LayRefusal::UsedBeyondEnd(bytes.len()));
    }
    read_through(&bytes[..used])
}

impl<'a> PackedJournal<'a> {
    ghost use Rattle.packed_journal.specs.Calls.{bytes_of, list_of, LaidOn, LastOf};

    // The journal on bytes of which the first `used` hold entries already, or the bytes back.
    pub fn lay(bytes: &'a mut [u8], used: usize) -> Result<PackedJournal<'a>, Refused<&'a mut [u8]>>
        ensures journal { IfOk result (λ j. LaidOn bytes.old used j) }
        ensures refusal { IfErr result (λ u. (laid bytes.old used ≡ Err u.refusal) × (u.back.now ≡ bytes.old)) }
        ensures back { YieldEachOtherBack }
        ensures unique { OneWriting }
    {
        // `match` hands the borrow back, which `?` would not
        match ask(bytes, used) {
            Ok(()) => Ok(PackedJournal { bytes, used }),
            Err(refusal) => Err(Refused {
                back: bytes,
                refusal,
            }),
        }
    }

    // The bytes that hold the entries: the writing of the list.
    pub fn used_bytes(&self) -> &[u8]
        ensures bytes { result.now ≡ take self.now.used (bytes_of self.now) }
        ensures writing { result.now ≡ packed (list_of self.now) }
    {
        &self.bytes[..self.used]
    }

    #[tactic(auto, using(crate::proofs::Changes::last_of))]
    fn last(&self) -> Option<Last>
        ensures { LastOf (bytes_of self.now) self.now.used result }
    {
        last_entry(self.used_bytes())
    }
}

impl<'a> Journal for PackedJournal<'a> {
    ghost use Rattle.packed_journal.specs.Calls.{bytes_of, list_of, rule_of};

    ghost entries = { list_of };

    ghost fits = { rule_of };

    // As the trait has it, whose clauses these take the place of; and only the bytes of the entry are written.
    #[tactic(auto, using(crate::proofs::Changes::longer, crate::proofs::Changes::no_longer, crate::proofs::Changes::same_journal))]
    fn push(&mut self, entry: Entry) -> Result<(), Full>
        ensures answer { result ≡ push_answer (rule_of self.old) (list_of self.old) entry }
        ensures list { list_of self.new ≡ pushed (rule_of self.old) (list_of self.old) entry }
        ensures rule { rule_of self.new ≡ rule_of self.old }
        ensures full { OnErr result (self.new ≡ self.old) }
        ensures bytes { OnOk result (Written (bytes_of self.old) self.old.used (entry_bytes entry) self.new.used (bytes_of self.new)) }
    {
        let Ok(end) = write_entry(self.bytes, self.used, entry) else {
            return Err(Full);
        };
        self.used = end;
        Ok(())
    }

    fn newest(&self) -> Option<Entry> {
        Some(self.last()?.entry)
    }

    // As the trait has it, whose clauses these take the place of; and the bytes keep their contents.
    fn pop(&mut self) -> Option<Entry>
        ensures answer { result ≡ newest_of (list_of self.old) }
        ensures list { list_of self.new ≡ older_of (list_of self.old) }
        ensures rule { rule_of self.new ≡ rule_of self.old }
        ensures bytes { bytes_of self.new ≡ bytes_of self.old }
    {
        let last = self.last()?;
        self.used = last.start;
        Some(last.entry)
    }
}

#[cfg(test)]
mod tests {
    use super::*;

    #[test]
    fn used_bytes_are_judged_in_reading_order(rt: HostRuntime) {
        let table: [(&[u8], usize, Result<(), LayRefusal>); 12] = [
            (&[], 0, Ok(())),
            (&[10, 4, 2, 172], 4, Ok(())),
            (&[10, 4, 2, 172], 3, Ok(())),
            (&[10, 4, 2, 172], 5, Err(LayRefusal::UsedBeyondEnd(4))),
            (&[10, 4, 2, 172], 2, Err(LayRefusal::MissingNumber(2))),
            (&[1, 255, 255, 1, 0], 5, Ok(())),
            (&[2, 128, 128, 1, 0], 5, Err(LayRefusal::WrongNumber(0))),
            (&[0, 1, 0, 0, 0, 0], 6, Err(LayRefusal::WrongNumber(4))),
            (&[0, 1, 0, 0, 10], 5, Err(LayRefusal::WrongNumber(4))),
            (&[0, 1, 0, 130], 4, Err(LayRefusal::WrongNumber(2))),
            (&[200, 1, 0], 3, Err(LayRefusal::WrongNumber(0))),
            (
                &[0, 4, 16, 128, 128, 128, 128],
                7,
                Err(LayRefusal::WrongNumber(2)),
            ),
        ];
        for (bytes, used, answer) in table {
            assert_eq!(rt; ask(bytes, used), answer);
        }
    }
}
