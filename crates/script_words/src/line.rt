// The lines of a script.
ghost use Rattle.std.specs.Prelude.{◌≡◌, ℕ, List, IfOk, Some};
ghost use Rattle.std.specs.Iterator.{Drains, IsFinite};
ghost use Rattle.script.specs.Calls.{instructions_of};
ghost use Rattle.script_words.specs.declared.operand.Operand.{Operand};
ghost use Rattle.script_words.specs.Numbering.{lines_of};
ghost use Rattle.script_words.specs.Words.{instruction_name, operand_of, line_text};

use crate::operand::Operand;
use instruction::instruction::Instruction;
use script::script::Script;
use std::alloc::{AllocError, Global};
use std::fmt;

// What a line shows: it has a name, and an operand stands behind it.
pub trait Listed: Copy {
    ghost name: { Self → List ℕ };

    ghost operand: { Self → Operand };

    fn name(self) -> &'static str
        ensures { result.now ≡ name self };

    fn operand(self) -> Operand
        ensures { result ≡ operand self };
}

// An instruction and its address, in a script or in a mirrored script.
#[derive(Clone, Copy, PartialEq, Eq, Debug)]
pub struct Line<I> {
    pub address: usize,
    pub instruction: I,
}

// A line for each instruction, from address 1 on.
#[tactic(auto, using(crate::proofs::Numbering::line_goes_behind))]
pub(crate) fn numbered<I: Copy, T: Iterator<Item = I> + Drop>(
    heap: Global,
    instructions: T,
) -> Result<Vec<Line<I>>, AllocError>
    requires can { T.can_next instructions }
    requires ends { IsFinite (T.remaining instructions) }
    ensures { IfOk result (λ v. (all : List I) × Drains T.next_gives instructions all × (v.items ≡ lines_of all)) }
{
    let mut lines = Vec::new(heap);
    // `collect` would ask the callers for a bound on how many come
    for instruction in instructions {
        let address = lines.len() + 1;
        lines.push(Line {
            address,
            instruction,
        })?;
    }
    Ok(lines)
}

// The lines of a script.
pub fn lines(heap: Global, script: &Script) -> Result<Vec<Line<Instruction>>, AllocError>
    ensures { IfOk result (λ v. v.items ≡ lines_of (instructions_of script.now)) }
{
    let forward = numbered(heap, script.instructions().iter().copied())?;
    Ok(forward)
}

impl<I: Listed> fmt::Display for Line<I> {
    ghost output = { λ line. Some (line_text line.address (I.name line.instruction) (I.operand line.instruction)) };

    fn fmt<W: fmt::Write>(&self, f: &mut fmt::Formatter<W>) -> fmt::Result {
        let address = self.address;
        let name = self.instruction.name();
        let operand = self.instruction.operand();
        write!(f, "{address}  {name}{operand}")
    }
}

impl Listed for Instruction {
    ghost name = { instruction_name };

    ghost operand = { operand_of };

    fn name(self) -> &'static str {
        match self {
            Instruction::Ipush(_) => "ipush",
            Instruction::Load(_) => "load",
            Instruction::Store(_) => "store",
            Instruction::Jpc(_) => "jpc",
            Instruction::Jmp(_) => "jmp",
            Instruction::Op(_) => "op",
            Instruction::Label => "label",
            Instruction::ParBegin | Instruction::ParEnd => "par",
            Instruction::Alloc(_) => "alloc",
            Instruction::Free(_) => "free",
            Instruction::Proc(_) => "proc",
            Instruction::PReturn(_) => "p_return",
            Instruction::Block(_) => "block",
            Instruction::End(_) => "end",
            Instruction::Fork(_) => "fork",
            Instruction::Merge(_) => "merge",
            Instruction::Nop => "nop",
        }
    }

    fn operand(self) -> Operand {
        match self {
            Instruction::Ipush(number) => Operand::Number(number),
            Instruction::Jpc(target) | Instruction::Jmp(target) => {
                Operand::Number(i32::from(target))
            }
            Instruction::Op(operator) => Operand::Operation(operator),
            Instruction::ParBegin => Operand::Number(0),
            Instruction::ParEnd => Operand::Number(1),
            Instruction::Load(variable)
            | Instruction::Store(variable)
            | Instruction::Alloc(variable)
            | Instruction::Free(variable) => Operand::Number(i32::from(variable)),
            Instruction::Proc(name)
            | Instruction::PReturn(name)
            | Instruction::Block(name)
            | Instruction::End(name)
            | Instruction::Fork(name)
            | Instruction::Merge(name) => Operand::Number(i32::from(name)),
            Instruction::Label | Instruction::Nop => Operand::Absent,
        }
    }
}
