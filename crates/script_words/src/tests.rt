// Examples of what is shown.
use crate::line::Line;
use instruction::instruction::{Instruction, Operator};
use instruction::mirror::MirrorInstruction;
use script::refusal::ImageRefusal;
use std::test::Fail;

#[test]
fn an_instruction_tells_its_operand(rt: HostRuntime) -> Result<(), Fail> {
    let table = [
        (Instruction::Ipush(-5), "12  ipush -5"),
        (Instruction::Store(40), "12  store 40"),
        (Instruction::Op(Operator::Greater), "12  op greater"),
        (Instruction::ParEnd, "12  par 1"),
        (Instruction::Label, "12  label"),
    ];
    for (instruction, text) in table {
        let line = Line {
            address: 12,
            instruction,
        };
        assert_eq!(rt; line.to_string(rt.alloc())?.as_str(), text);
    }
    Ok(())
}

#[test]
fn a_mirrored_instruction_tells_its_operand(rt: HostRuntime) -> Result<(), Fail> {
    let line = Line {
        address: 2,
        instruction: MirrorInstruction::RAlloc(40),
    };
    assert_eq!(rt; line.to_string(rt.alloc())?.as_str(), "2  r_alloc 40");
    Ok(())
}

#[test]
fn a_refusal_tells_its_place_or_address(rt: HostRuntime) -> Result<(), Fail> {
    let table = [
        (
            ImageRefusal::NoNumber(7),
            "1 at byte 7: no number begins here",
        ),
        (
            ImageRefusal::WrongCount,
            "3 at address 0: the count of instructions is not 1 to 1024",
        ),
    ];
    for (refusal, text) in table {
        assert_eq!(rt; refusal.to_string(rt.alloc())?.as_str(), text);
    }
    Ok(())
}
