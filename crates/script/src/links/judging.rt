// Judging the frames of a script in reading order.
ghost use Rattle.std.specs.Prelude.{◌≡◌, ◌≤◌, [], replicate};
ghost use Rattle.script.specs.Regions.{around, innermost};
ghost use Rattle.script.specs.Held.{list_of};
ghost use Rattle.script.specs.Linking.{OpenedBefore, TakenIn, JudgedAt, Linked};

use super::Links;
use crate::frames::{Misfit, OpenFrames};
use crate::instructions::{Instructions, MOST_INSTRUCTIONS};
use crate::names::is_fresh;
use crate::refusal::ImageRefusal;
use crate::role::Role;

// The region of an instruction at an address.
fn region_in(frames: &OpenFrames, role: Role, address: u16) -> u16
    ensures { result ≡ innermost (around role address frames.now) }
{
    match role {
        Role::Opens(kind) if kind.is_region() => address,
        _ => frames.innermost(),
    }
}

impl Links {
    fn none() -> Links
        ensures frames { result.frames ≡ [] }
        ensures partners { result.partners ≡ replicate 1024 0 }
    {
        Links {
            frames: OpenFrames::none(),
            partners: [0; MOST_INSTRUCTIONS],
            regions: [0; MOST_INSTRUCTIONS],
        }
    }

    // Takes in an instruction of a role at an address, if the open frames let it stand there; else these links are of no use.
    #[tactic(auto, using(crate::proofs::Linkings::countable_opened))]
    fn take_in(&mut self, role: Role, address: u16) -> Result<(), Misfit>
        requires some { 1 ≤ address }
        requires few { address ≤ 1024 }
        requires opened { OpenedBefore address self.old.frames }
        ensures { TakenIn role address self.old result self.new }
    {
        let place = usize::from(address) - 1;
        self.regions[place] = region_in(&self.frames, role, address);
        match role {
            Role::Opens(kind) => self.frames.open(kind, address)?,
            Role::Closes(kind) => {
                let opener = self.frames.close(kind)?;
                self.partners[place] = opener;
                self.partners[usize::from(opener) - 1] = address;
            }
            _ => {}
        }
        Ok(())
    }

    // Judges the frames at the next address.
    fn judge(&mut self, script: &Instructions, address: usize) -> Result<(), ImageRefusal>
        requires some { 1 ≤ address }
        requires few { address ≤ 1024 }
        requires opened { OpenedBefore address self.old.frames }
        ensures { JudgedAt (list_of script.now) address self.old result self.new }
    {
        let role = script.role(address);
        let before = script.role(address - 1);
        let after = script.role(address + 1);
        if !role.fits_between(before, after) || !is_fresh(script, address) {
            return Err(ImageRefusal::BrokenFrame(address));
        }
        self.take_in(role, address as u16)
            .map_err(|_| ImageRefusal::BrokenFrame(address))
    }
}

// Judges the frames of a script.
#[tactic(auto, using(crate::proofs::Linkings::opened_linked, crate::proofs::Linkings::refused_frames, crate::proofs::Linkings::left_open))]
pub(crate) fn link(script: &Instructions) -> Result<Links, ImageRefusal>
    ensures { Linked (list_of script.now) result }
{
    let mut links = Links::none();
    // addresses and no iterator: each is judged by its neighbours, and a frame that is still open is told behind the last
    let end = script.count() + 1;
    for address in 1..end {
        links.judge(script, address)?;
    }
    if !links.frames.is_empty() {
        return Err(ImageRefusal::BrokenFrame(end));
    }
    Ok(links)
}
