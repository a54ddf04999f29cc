// The instructions of a script.
ghost use Rattle.std.specs.Prelude.{Some};
ghost use Rattle.instruction.specs.OperatorWords.{operator_name};

use std::fmt;

// What `op` does with the two numbers l and r that it pops.
#[derive(Clone, Copy, PartialEq, Eq, Debug)]
pub enum Operator {
    Add, // l + r
    Multiply, // l * r
    Subtract, // l - r
    Greater, // 1 if l > r, else 0
    Equal, // 1 if l == r, else 0
}

impl fmt::Display for Operator {
    ghost output = { λ operator. Some (operator_name operator) };

    fn fmt<W: fmt::Write>(&self, f: &mut fmt::Formatter<W>) -> fmt::Result {
        f.write_str(match self {
            Operator::Add => "add",
            Operator::Multiply => "multiply",
            Operator::Subtract => "subtract",
            Operator::Greater => "greater",
            Operator::Equal => "equal",
        })
    }
}

// A variable is 0 to 63, a name 1 to 255, and a target the address of an instruction.
#[derive(Clone, Copy, PartialEq, Eq, Debug)]
pub enum Instruction {
    Ipush(i32), // pushes the number
    Load(u8), // pushes the variable's value
    Store(u8), // pops into the variable
    Jpc(u16), // pops, and goes to the target at 1
    Jmp(u16), // goes to the target
    Op(Operator), // pops two numbers and pushes the result
    Label, // where jumps arrive
    ParBegin, // begins a branch
    ParEnd, // ends it
    Alloc(u8), // declares the variable
    Free(u8), // removes it
    Proc(u8), // begins the procedure of the name
    PReturn(u8), // ends it
    Block(u8), // begins the block of the name
    End(u8), // ends it
    Fork(u8), // starts the branches that follow, and waits at the merge
    Merge(u8), // removes the finished branches
    Nop, // does nothing
}
