// A client that is proved once for every journal, and piles of layers for it to run on.
#![tactic(auto)]

ghost use Rattle.std.specs.Prelude.{◌≡◌, length, IfOk, if◌then◌else◌, Some, None, nat_le};
ghost use Rattle.batch.specs.Runs.{recorded};

use batch::{into_entries, record_until_full};
use delta_journal::Delta;
use journal::entry::Entry;
use journal::journal::Journal;
use slot_journal::SlotJournal;
use std::alloc::{AllocError, Global};

// Records what fits of a batch, and takes the journal apart again, the newest entry first.
pub fn round_trip<J: Journal + Drop>(
    mut journal: J,
    batch: &[Entry],
    heap: Global,
) -> Result<Vec<Entry>, AllocError>
    ensures { IfOk result (λ v. v.items ≡ recorded (J.fits journal) (J.entries journal) batch.now) }
{
    record_until_full(&mut journal, batch);
    into_entries(journal, heap)
}

// Slots under two layers give back what they are given, if there is a slot.
pub fn through_two_layers(slots: &mut [Entry], entry: Entry) -> Option<Entry>
    ensures { result ≡ (if nat_le 1 (length slots.old) then Some entry else None) }
{
    let Ok(lower) = Delta::lay(SlotJournal::new(slots)) else {
        unreachable!()
    };
    let Ok(mut upper) = Delta::lay(lower) else {
        unreachable!()
    };
    upper.push(entry).ok()?;
    upper.pop()
}

#[cfg(test)]
mod tests {
    use super::*;
    use journal::kind::Kind;
    use packed_journal::PackedJournal;
    use std::test::Fail;

    // Two branches store into one row, which held 3: the second first.
    fn history() -> [Entry; 6] {
        [
            Entry {
                owner: 0,
                kind: Kind::Run,
                number: 0,
            },
            Entry {
                owner: 0,
                kind: Kind::Fork,
                number: 0,
            },
            Entry {
                owner: 2,
                kind: Kind::Store,
                number: 3,
            },
            Entry {
                owner: 1,
                kind: Kind::Store,
                number: 6,
            },
            Entry {
                owner: 0,
                kind: Kind::Merge,
                number: 0,
            },
            Entry {
                owner: 0,
                kind: Kind::Done,
                number: 0,
            },
        ]
    }

    #[test]
    fn two_layers_on_five_slots_keep_five_entries(rt: HostRuntime) -> Result<(), Fail> {
        let batch = history();
        let mut slots = [batch[0]; 5];
        let Ok(lower) = Delta::lay(SlotJournal::new(&mut slots)) else {
            return Err(Fail::new("the lower layer is refused"));
        };
        let Ok(upper) = Delta::lay(lower) else {
            return Err(Fail::new("the upper layer is refused"));
        };
        let list = round_trip(upper, &batch, rt.alloc())?;
        assert_eq!(rt;
            list.as_slice(),
            [batch[4], batch[3], batch[2], batch[1], batch[0]].as_slice()
        );
        Ok(())
    }

    #[test]
    fn a_layer_on_bytes_leaves_differences_there(rt: HostRuntime) -> Result<(), Fail> {
        let mut bytes = [77u8; 20];
        let Ok(packed) = PackedJournal::lay(&mut bytes, 0) else {
            return Err(Fail::new("the bytes are refused"));
        };
        let Ok(layer) = Delta::lay(packed) else {
            return Err(Fail::new("the layer is refused"));
        };
        let list = round_trip(layer, &history(), rt.alloc())?;
        assert_eq!(rt; list.len(), 6);
        assert_eq!(rt;
            bytes,
            [
                0, 1, 0, 0, 8, 0, 2, 4, 6, 1, 4, 6, 0, 9, 11, 0, 2, 0, 77, 77,
            ]
        );
        Ok(())
    }

    #[test]
    fn a_slot_under_two_layers_gives_an_entry_back(rt: HostRuntime) {
        let entry = history()[3];
        let mut slots = [history()[0]; 1];
        assert_eq!(rt; through_two_layers(&mut slots, entry), Some(entry));
        assert_eq!(rt; through_two_layers(&mut [], entry), None);
    }

    // Generic over what lies beneath its two layers: a layer's type must not stand in the way.
    #[derive(Drop)]
    struct Pile<J: Journal> {
        upper: Delta<Delta<J>>,
    }

    impl<J: Journal> Pile<J> {
        fn newest(&self) -> Option<Entry> {
            self.upper.newest()
        }
    }

    #[test]
    fn a_generic_pile_shows_the_newest_entry(rt: HostRuntime) -> Result<(), Fail> {
        let entry = history()[3];
        let mut slots = [history()[0]; 1];
        let Ok(lower) = Delta::lay(SlotJournal::new(&mut slots)) else {
            return Err(Fail::new("the lower layer is refused"));
        };
        let Ok(upper) = Delta::lay(lower) else {
            return Err(Fail::new("the upper layer is refused"));
        };
        let mut pile = Pile { upper };
        assert_eq!(rt; pile.newest(), None);
        let _ = pile.upper.push(entry);
        assert_eq!(rt; pile.newest(), Some(entry));
        Ok(())
    }
}
