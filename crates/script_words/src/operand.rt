// What stands behind the name of an instruction.
ghost use Rattle.std.specs.Prelude.{Some};
ghost use Rattle.script_words.specs.Operands.{operand_text};

use instruction::instruction::Operator;
use std::fmt;

// It is shown with a space before it. Absent and not an Option around the others, which would have no Display.
#[derive(Clone, Copy, PartialEq, Eq, Debug)]
pub enum Operand {
    Absent,
    Number(i32),
    Operation(Operator),
}

impl fmt::Display for Operand {
    ghost output = { λ operand. Some (operand_text operand) };

    fn fmt<W: fmt::Write>(&self, f: &mut fmt::Formatter<W>) -> fmt::Result {
        match *self {
            Operand::Absent => Ok(()),
            Operand::Number(number) => write!(f, " {number}"),
            Operand::Operation(operator) => write!(f, " {operator}"),
        }
    }
}
