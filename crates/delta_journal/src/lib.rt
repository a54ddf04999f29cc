// A layer over any journal that passes entries down with differences for numbers.
#![tactic(auto)]

ghost use Rattle.std.specs.Prelude.{◌≡◌, [], ◌∷◌, pos, ◌-ℤ◌, IfOk, IfErr, MatchResult, OnOk, ◌≢◌};
ghost use Rattle.std.specs.Int.{int_wrap, w32};
ghost use Rattle.journal.specs.Refusals.{told};
ghost use Rattle.delta_journal.specs.Differences.{renumbered, differences, originals, base_of, differences_fit, NumbersComeBack};

use journal::entry::Entry;
use journal::journal::{Full, Journal};
use journal::refusal::{LayRefusal, Refused};

// Beneath lie the entries, each with its number less the number before; kept is the newest number.
// No fact that the number before the oldest entry is 0 stands in the type: a struct that holds a layer on a layer
// could not be generic then.
#[derive(Drop)]
pub struct Delta<J: Journal> {
    below: J,
    kept: i32,
}

impl<J: Journal> Delta<J> {
    // Whether the journal can bear the layer: it has no entry.
    pub fn ask(journal: &J) -> Result<(), LayRefusal>
        ensures { MatchResult result (λ _. J.entries journal.now ≡ []) (λ f. (J.entries journal.now ≢ []) × (f ≡ LayRefusal.EntryBeneath) × (told f ≡ (14, 0))) }
    {
        match journal.newest() {
            None => Ok(()),
            Some(_) => Err(LayRefusal::EntryBeneath),
        }
    }

    // The empty layer on the journal, or the journal back. A list fits where its differences from 0 on fit below.
    #[tactic(auto, using(crate::proofs::Back::numbers_come_back))]
    pub fn lay(journal: J) -> Result<Delta<J>, Refused<J>>
        ensures laid { IfOk result (λ d. (J.entries journal ≡ []) × (d.below ≡ journal) × (d.kept ≡ pos 0) × (originals d.kept (J.entries d.below) ≡ [])) }
        ensures rule { IfOk result (λ d. differences_fit (J.fits d.below) (base_of d.kept (J.entries d.below)) ≡ differences_fit (J.fits journal) (pos 0)) }
        ensures rule_from_zero { IfOk result (λ d. differences_fit (J.fits d.below) (pos 0) ≡ differences_fit (J.fits journal) (pos 0)) }
        ensures numbers_come_back { OnOk result (NumbersComeBack) }
        ensures handed_back { IfErr result (λ f. (J.entries journal ≢ []) × (f.back ≡ journal) × (f.refusal ≡ LayRefusal.EntryBeneath) × (told f.refusal ≡ (14, 0))) }
    {
        // `match` hands the journal back, which `?` would drop
        match Delta::ask(&journal) {
            Ok(()) => Ok(Delta {
                below: journal,
                kept: 0,
            }),
            Err(refusal) => Err(Refused {
                back: journal,
                refusal,
            }),
        }
    }

    // The entry with its number less the kept one.
    fn difference(&self, entry: Entry) -> Entry
        ensures entry_back { renumbered result entry.number ≡ entry }
        ensures kept_back { int_wrap w32 (entry.number -ℤ result.number) ≡ self.now.kept }
        ensures list { differences (base_of self.now.kept (J.entries self.now.below)) (entry ∷ originals self.now.kept (J.entries self.now.below)) ≡ result ∷ J.entries self.now.below }
    {
        renumbered(entry, entry.number.wrapping_sub(self.kept))
    }
}

// The entry with another number. (A struct with facts in its type takes no `..entry`.)
fn renumbered(entry: Entry, number: i32) -> Entry
    ensures { result ≡ renumbered entry number }
{
    Entry {
        owner: entry.owner,
        kind: entry.kind,
        number,
    }
}

impl<J: Journal> Journal for Delta<J> {
    ghost entries = { λ s. originals s.kept (J.Journal.entries s.below) };

    ghost fits = { λ s. differences_fit (J.Journal.fits s.below) (base_of s.kept (J.Journal.entries s.below)) };

    fn push(&mut self, entry: Entry) -> Result<(), Full> {
        let difference = self.difference(entry);
        self.below.push(difference)?;
        self.kept = entry.number;
        Ok(())
    }

    fn newest(&self) -> Option<Entry> {
        let difference = self.below.newest()?;
        Some(renumbered(difference, self.kept))
    }

    fn pop(&mut self) -> Option<Entry> {
        let difference = self.below.pop()?;
        let number = self.kept;
        self.kept = number.wrapping_sub(difference.number);
        Some(renumbered(difference, number))
    }
}
