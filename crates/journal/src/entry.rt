// One history entry.
ghost use Rattle.std.specs.Prelude.{◌≡◌, ◌<◌, ◌≤◌, MatchOption};
ghost use Rattle.std.specs.Int.Signed.{mag};

use crate::kind::Kind;

pub const MOST_OWNER: u16 = 32_767;

// Who did what, and the number that undoing it needs. The owner is a process number, in an Enter entry the row.
#[derive(Clone, Copy, PartialEq, Eq, Debug)]
pub struct Entry {
    pub owner: u16,
    pub kind: Kind,
    pub number: i32,
    ghost owned: { owner ≤ 32767 },
    // true of every i32, and said here because a clause reads the field as an integer without bound
    ghost sized: { mag number < 2147483648 },
}

impl Entry {
    // The entry, or None where the owner is past 32,767.
    pub fn new(owner: u16, kind: Kind, number: i32) -> Option<Entry>
        ensures { MatchOption result (32767 < owner) (λ e. (e.owner ≡ owner) × (e.kind ≡ kind) × (e.number ≡ number)) }
    {
        if owner <= MOST_OWNER {
            Some(Entry {
                owner,
                kind,
                number,
            })
        } else {
            None
        }
    }
}
