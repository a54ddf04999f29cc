// The codes of the instructions in images: the one place that knows them.
ghost use Rattle.std.specs.Prelude.{◌≡◌, IfSome};
ghost use Rattle.instruction.specs.Codes.{instruction_of, code_and_operand};

use crate::instruction::{Instruction, Operator};
use varint::zigzag::unfold;

// The instruction of a code and an operand in a script of `count` instructions, if there is one.
// Code and operand stay two numbers: a struct would name both its fields in every arm.
pub fn instruction_of(count: u16, code: u32, operand: u32) -> Option<Instruction>
    ensures answer { result ≡ instruction_of count code operand }
    ensures back { IfSome result (λ i. code_and_operand count i ≡ (code, operand)) }
{
    match (code, operand) {
        (1, folded) => Some(Instruction::Ipush(unfold(folded))),
        (2, x @ 0..=63) => Some(Instruction::Load(x as u8)),
        (3, x @ 0..=63) => Some(Instruction::Store(x as u8)),
        (4, a) if a >= 1 && a <= u32::from(count) => Some(Instruction::Jpc(a as u16)),
        (5, a) if a >= 1 && a <= u32::from(count) => Some(Instruction::Jmp(a as u16)),
        (6, 0) => Some(Instruction::Op(Operator::Add)),
        (6, 1) => Some(Instruction::Op(Operator::Multiply)),
        (6, 2) => Some(Instruction::Op(Operator::Subtract)),
        (6, 3) => Some(Instruction::Op(Operator::Greater)),
        (6, 4) => Some(Instruction::Op(Operator::Equal)),
        (7, n) if n == u32::from(count) => Some(Instruction::Label),
        (8, 0) => Some(Instruction::ParBegin),
        (8, 1) => Some(Instruction::ParEnd),
        (9, x @ 0..=63) => Some(Instruction::Alloc(x as u8)),
        (10, x @ 0..=63) => Some(Instruction::Free(x as u8)),
        (11, p @ 1..=255) => Some(Instruction::Proc(p as u8)),
        (12, p @ 1..=255) => Some(Instruction::PReturn(p as u8)),
        (13, b @ 1..=255) => Some(Instruction::Block(b as u8)),
        (14, b @ 1..=255) => Some(Instruction::End(b as u8)),
        (15, a @ 1..=255) => Some(Instruction::Fork(a as u8)),
        (16, a @ 1..=255) => Some(Instruction::Merge(a as u8)),
        (21, 0) => Some(Instruction::Nop),
        _ => None,
    }
}
