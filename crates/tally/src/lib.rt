// How many entries each process and each row has.
#![tactic(auto)]

ghost use Rattle.std.specs.Prelude.{◌+◌, ◌^◌, ◌<◌, IfOk, Some, OnOk};
ghost use Rattle.std.specs.BTreeMap.{Updates, IsOrdered, get};
ghost use Rattle.std.specs.Map.{count_at};
ghost use Rattle.tally.specs.Counts.{Tallied, share_text};

use journal::entry::Entry;
use report::owner::Owner;
use std::alloc::{AllocError, Global};
use std::collections::BTreeMap;
use std::fmt;

// The counts in the order of owners; who has no entry is not in it.
#[derive(PartialEq, Eq, Debug, Drop)]
pub struct Tally {
    pub counts: BTreeMap<Owner, usize>,
}

impl Tally {
    pub fn of(heap: Global, entries: &[Entry]) -> Result<Tally, AllocError>
        ensures { IfOk result (λ tally. Tallied entries.now tally) }
    {
        let mut counts = BTreeMap::new(heap);
        for entry in entries {
            count_up(&mut counts, Owner::from(entry))?;
        }
        Ok(Tally { counts })
    }
}

fn count_up(counts: &mut BTreeMap<Owner, usize>, owner: Owner) -> Result<(), AllocError>
    requires { count_at (get ⟦<Owner as Ord>⟧.cmp counts.old) owner + 1 < 2 ^ 64 }
    ensures counted { OnOk result (Updates ⟦<Owner as Ord>⟧.cmp counts.old counts.new owner (Some (count_at (get ⟦<Owner as Ord>⟧.cmp counts.old) owner + 1))) }
    ensures ordered { IsOrdered ⟦<Owner as Ord>⟧.cmp counts.new }
{
    *counts.entry(owner)?.or_insert(0) += 1;
    Ok(())
}

// How many entries an owner has.
#[derive(Clone, Copy, PartialEq, Eq, Debug)]
pub struct Share {
    pub owner: Owner,
    pub entries: usize,
}

impl fmt::Display for Share {
    ghost output = { λ s. Some (share_text s.owner s.entries) };

    fn fmt<W: fmt::Write>(&self, f: &mut fmt::Formatter<W>) -> fmt::Result {
        let owner = self.owner;
        let entries = self.entries;
        if entries == 1 {
            write!(f, "{owner}  1 entry")
        } else {
            write!(f, "{owner}  {entries} entries")
        }
    }
}
