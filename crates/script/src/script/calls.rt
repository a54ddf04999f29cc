ghost use Rattle.std.specs.Prelude.{◌≡◌, ◌≤◌, length};
ghost use Rattle.script.specs.Scripts.{instruction_at};
ghost use Rattle.script.specs.Images.{Accepted};
ghost use Rattle.script.specs.Calls.{instructions_of, partner_of};

use super::Script;
use instruction::instruction::Instruction;

impl Script {
    // How many instructions it has, N.
    pub fn count(&self) -> usize
        ensures count { result ≡ length (instructions_of self.now) }
        ensures few { result ≤ 1024 }
        ensures accepted { Accepted (instructions_of self.now) }
    {
        self.instructions.count()
    }

    // All instructions, in reading order.
    pub fn instructions(&self) -> &[Instruction]
        ensures { result.now ≡ instructions_of self.now }
    {
        self.instructions.as_slice()
    }

    // The instruction at an address from 1 to N; any other address reads as nop.
    pub fn at(&self, address: usize) -> Instruction
        ensures { result ≡ instruction_at (instructions_of self.now) address }
    {
        self.instructions.at(address)
    }

    // The address of the closer that belongs to the opener at an address, or the other way round, where either stands there.
    #[tactic(auto, using(crate::proofs::Outside::partnerless_at_0, crate::proofs::Outside::partnerless_behind))]
    pub fn partner(&self, address: usize) -> Option<usize>
        ensures { result ≡ partner_of (instructions_of self.now) address }
    {
        let place = address.checked_sub(1)?;
        let partner = usize::from(*self.partners[..self.count()].get(place)?);
        if partner > 0 { Some(partner) } else { None }
    }
}
