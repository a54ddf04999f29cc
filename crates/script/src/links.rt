// The partner and the region of each instruction, as they are found while the frames of a script are judged.
ghost use Rattle.std.specs.Prelude.{◌≡◌, length};

use crate::frames::OpenFrames;
use crate::instructions::MOST_INSTRUCTIONS;

pub mod judging;

// By address, from address 1 on: 0 where there is no partner, and for the whole script as a region.
// Two tables, since a script keeps the partners alone; 0 in place of None, which would make them twice as large: `partner` answers the Option.
#[derive(Drop)]
pub struct Links {
    frames: OpenFrames,
    pub partners: [u16; MOST_INSTRUCTIONS],
    pub regions: [u16; MOST_INSTRUCTIONS],
    ghost partner_table: { length partners ≡ 1024 },
    ghost region_table: { length regions ≡ 1024 },
}
