// Why a mirrored script is not written.
ghost use Rattle.std.specs.Prelude.{◌≡◌};
ghost use Rattle.mirror.specs.Refusals.{told};
ghost use Rattle.mirror.specs.declared.refusal.MirrorRefusal.TheVariants.{BufferTooShort};

use varint::number::NoRoom;

#[derive(Clone, Copy, PartialEq, Eq, Debug)]
pub enum MirrorRefusal {
    BufferTooShort,
}

impl MirrorRefusal {
    // The number by which users know the refusal.
    pub fn number(self) -> u32
        ensures { result ≡ told self }
    {
        match self {
            MirrorRefusal::BufferTooShort => 15,
        }
    }
}

// Where a number finds no room, the mirrored script does not fit.
impl From<NoRoom> for MirrorRefusal {
    ghost from_gives = { λ _ r. r ≡ BufferTooShort };

    fn from(_no_room: NoRoom) -> MirrorRefusal {
        MirrorRefusal::BufferTooShort
    }
}
