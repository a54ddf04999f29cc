// The lines of a mirrored script.
ghost use Rattle.std.specs.Prelude.{◌≡◌, IfOk};
ghost use Rattle.script.specs.Calls.{instructions_of};
ghost use Rattle.instruction.specs.Mirrors.{mirrors_of};
ghost use Rattle.script_words.specs.Numbering.{lines_of};
ghost use Rattle.script_words.specs.Words.{mirror_name, mirror_operand_of};

use crate::line::{Line, Listed, numbered};
use crate::operand::Operand;
use instruction::mirror::MirrorInstruction;
use script::script::Script;
use std::alloc::{AllocError, Global};

// The lines of a script's mirrored script.
pub fn mirror_lines(
    heap: Global,
    script: &Script,
) -> Result<Vec<Line<MirrorInstruction>>, AllocError>
    ensures { IfOk result (λ v. v.items ≡ lines_of (mirrors_of (instructions_of script.now))) }
{
    let mirrors = script.instructions().iter().rev().map(|i| i.mirror());
    let lines = numbered(heap, mirrors)?;
    Ok(lines)
}

impl Listed for MirrorInstruction {
    ghost name = { mirror_name };

    ghost operand = { mirror_operand_of };

    fn name(self) -> &'static str {
        match self {
            MirrorInstruction::Rjmp => "rjmp",
            MirrorInstruction::Restore(_) => "restore",
            MirrorInstruction::RLabel => "r_label",
            MirrorInstruction::ParBegin | MirrorInstruction::ParEnd => "par",
            MirrorInstruction::RAlloc(_) => "r_alloc",
            MirrorInstruction::Free(_) => "free",
            MirrorInstruction::RProc(_) => "r_proc",
            MirrorInstruction::RReturn(_) => "r_return",
            MirrorInstruction::Block(_) => "block",
            MirrorInstruction::End(_) => "end",
            MirrorInstruction::RFork(_) => "r_fork",
            MirrorInstruction::Merge(_) => "merge",
            MirrorInstruction::Nop => "nop",
        }
    }

    fn operand(self) -> Operand {
        match self {
            MirrorInstruction::ParBegin => Operand::Number(0),
            MirrorInstruction::ParEnd => Operand::Number(1),
            MirrorInstruction::Restore(variable)
            | MirrorInstruction::RAlloc(variable)
            | MirrorInstruction::Free(variable) => Operand::Number(i32::from(variable)),
            MirrorInstruction::RProc(name)
            | MirrorInstruction::RReturn(name)
            | MirrorInstruction::Block(name)
            | MirrorInstruction::End(name)
            | MirrorInstruction::RFork(name)
            | MirrorInstruction::Merge(name) => Operand::Number(i32::from(name)),
            MirrorInstruction::Rjmp | MirrorInstruction::RLabel | MirrorInstruction::Nop => {
                Operand::Absent
            }
        }
    }
}
