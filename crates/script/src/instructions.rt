// The instructions of a script, in reading order.
ghost use Rattle.std.specs.Prelude.{◌≤◌};

use instruction::instruction::Instruction;

mod calls;

// As many as a script can have.
pub const MOST_INSTRUCTIONS: usize = 1024;

// The first `count` of the table: a script is `Copy`, which an `ArrayVec` is not.
#[derive(Clone, Copy)]
pub struct Instructions {
    items: [Instruction; MOST_INSTRUCTIONS],
    count: usize,
    ghost few: { count ≤ 1024 },
}
