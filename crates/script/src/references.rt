// Judging the ends and jumps of a script, which refer to another instruction.
ghost use Rattle.std.specs.Prelude.{◌≡◌, ◌≤◌, length};
ghost use Rattle.script.specs.References.{label_for, call_from, reference_judged, references_judged};
ghost use Rattle.script.specs.Held.{list_of, HasRegions};

use crate::instructions::Instructions;
use crate::links::Links;
use crate::names::has_block;
use crate::refusal::ImageRefusal;
use crate::role::Role;

// An instruction of a script whose regions are known.
#[derive(Clone, Copy)]
struct Referring<'a> {
    script: &'a Instructions,
    links: &'a Links,
    address: usize,
    ghost some: { 1 ≤ address },
    ghost within: { address ≤ length (list_of script.now) },
    ghost regions: { HasRegions (list_of script.now) links.now.regions },
}

impl Referring<'_> {
    // Whether a label of its region stands at the target.
    #[tactic(auto, using(crate::proofs::OpenFrames::arrives_within))]
    fn is_label(&self, target: usize) -> bool
        ensures { result ≡ label_for (list_of self.now.script.now) self.now.address target }
    {
        // what arrives stands within the script, so the index does too
        self.script.role(target).arrives()
            && self.links.regions[target - 1] == self.links.regions[self.address - 1]
    }

    // Whether a proc stands at the target, and a label for its return directly behind the instruction.
    fn is_call(&self, target: usize) -> bool
        ensures { result ≡ call_from (list_of self.now.script.now) self.now.address target }
    {
        self.script.role(target).opens_procedure() && self.is_label(self.address + 1)
    }

    fn check(&self) -> Result<(), ImageRefusal>
        ensures { result ≡ reference_judged (list_of self.now.script.now) self.now.address }
    {
        let address = self.address;
        match self.script.role(address) {
            Role::JumpsIf(target) if !self.is_label(usize::from(target)) => {
                Err(ImageRefusal::WrongTarget(address))
            }
            Role::Jumps(target)
                if !self.is_label(usize::from(target)) && !self.is_call(usize::from(target)) => {
                Err(ImageRefusal::WrongTarget(address))
            }
            Role::EndsBlock(name) if !has_block(self.script, name) => {
                Err(ImageRefusal::EndWithoutBlock(address))
            }
            _ => Ok(()),
        }
    }
}

// Judges the ends and jumps of a script whose regions are known.
#[tactic(auto, using(crate::proofs::ReferenceTurns::references_next, crate::proofs::ReferenceTurns::references_end))]
pub(crate) fn check_references(script: &Instructions, links: &Links) -> Result<(), ImageRefusal>
    requires { HasRegions (list_of script.now) links.now.regions }
    ensures { result ≡ references_judged (list_of script.now) }
{
    for address in 1..=script.count() {
        Referring {
            script,
            links,
            address,
        }
        .check()?;
    }
    Ok(())
}
