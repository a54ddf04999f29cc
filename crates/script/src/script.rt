// A script that was accepted, with its openers and closers linked.
ghost use Rattle.script.specs.Images.{Accepted};
ghost use Rattle.script.specs.Held.{list_of, HasPartners};

use crate::instructions::{Instructions, MOST_INSTRUCTIONS};

mod calls;

#[derive(Clone, Copy)]
pub struct Script {
    pub(crate) instructions: Instructions,
    // beside the instructions, which are shown as a slice of their own
    pub(crate) partners: [u16; MOST_INSTRUCTIONS],
    ghost accepted: { Accepted (list_of instructions) },
    ghost linked: { HasPartners (list_of instructions) partners },
}
