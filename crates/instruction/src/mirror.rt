// The instructions of a mirrored script, and their codes.
ghost use Rattle.std.specs.Prelude.{◌≡◌};
ghost use Rattle.instruction.specs.Mirrors.{mirror_of, mirror_code_and_operand};

use crate::instruction::Instruction;

#[derive(Clone, Copy, PartialEq, Eq, Debug)]
pub enum MirrorInstruction {
    Rjmp, // goes to where a label was come to from
    Restore(u8), // puts a variable's old value back
    RLabel, // where an rjmp arrives
    ParBegin, // begins a branch, at its end
    ParEnd, // ends it, at its begin
    RAlloc(u8), // declares a freed variable again
    Free(u8), // removes a declared variable
    RProc(u8), // begins a procedure, at its return
    RReturn(u8), // ends it, at its begin
    Block(u8), // begins a block, at its end
    End(u8), // ends it, at its begin
    RFork(u8), // starts merged branches again
    Merge(u8), // waits for them
    Nop, // does nothing
}

impl Instruction {
    // The instruction that takes this one back.
    pub fn mirror(self) -> MirrorInstruction
        ensures { result ≡ mirror_of self }
    {
        match self {
            Instruction::Ipush(_) | Instruction::Load(_) | Instruction::Op(_) => {
                MirrorInstruction::Nop
            }
            Instruction::Store(x) => MirrorInstruction::Restore(x),
            Instruction::Jpc(_) | Instruction::Jmp(_) => MirrorInstruction::RLabel,
            Instruction::Label => MirrorInstruction::Rjmp,
            Instruction::ParBegin => MirrorInstruction::ParEnd,
            Instruction::ParEnd => MirrorInstruction::ParBegin,
            Instruction::Alloc(x) => MirrorInstruction::Free(x),
            Instruction::Free(x) => MirrorInstruction::RAlloc(x),
            Instruction::Proc(p) => MirrorInstruction::RReturn(p),
            Instruction::PReturn(p) => MirrorInstruction::RProc(p),
            Instruction::Block(b) => MirrorInstruction::End(b),
            Instruction::End(b) => MirrorInstruction::Block(b),
            Instruction::Fork(a) => MirrorInstruction::Merge(a),
            Instruction::Merge(a) => MirrorInstruction::RFork(a),
            Instruction::Nop => MirrorInstruction::Nop,
        }
    }
}

impl MirrorInstruction {
    // The code and the operand that stand for it in an image. `From` would not say which of the two is which.
    pub fn code_and_operand(self) -> (u32, u32)
        ensures { result ≡ mirror_code_and_operand self }
    {
        match self {
            MirrorInstruction::Rjmp => (1, 0),
            MirrorInstruction::Restore(x) => (2, u32::from(x)),
            MirrorInstruction::RLabel => (3, 0),
            MirrorInstruction::ParBegin => (4, 0),
            MirrorInstruction::ParEnd => (4, 1),
            MirrorInstruction::RAlloc(x) => (5, u32::from(x)),
            MirrorInstruction::Free(x) => (6, u32::from(x)),
            MirrorInstruction::RProc(p) => (7, u32::from(p)),
            MirrorInstruction::RReturn(p) => (8, u32::from(p)),
            MirrorInstruction::Block(b) => (9, u32::from(b)),
            MirrorInstruction::End(b) => (10, u32::from(b)),
            MirrorInstruction::RFork(a) => (11, u32::from(a)),
            MirrorInstruction::Merge(a) => (12, u32::from(a)),
            MirrorInstruction::Nop => (15, 0),
        }
    }
}
