// The first two stages of reading an image: its numbers, and the instructions that they stand for.
ghost use Rattle.std.specs.Prelude.{◌≡◌, ◌≤◌, length};
ghost use Rattle.script.specs.Images.{pair_at, pairs_of, decoded};
ghost use Rattle.script.specs.Calls.{held, gathered};

use crate::instructions::{Instructions, MOST_INSTRUCTIONS};
use crate::refusal::ImageRefusal;
use arrayvec::ArrayVec;
use instruction::codes::instruction_of;
use varint::number::read;

// Codes and operands, as many as a script can have.
pub(crate) type Pairs = ArrayVec<(u32, u32), MOST_INSTRUCTIONS>;

// The code and the operand from a place on, and the place after them.
fn read_pair(bytes: &[u8], place: usize) -> Result<((u32, u32), usize), ImageRefusal>
    ensures { result ≡ pair_at bytes.now place }
{
    let (code, next) = read(bytes, place)?;
    let (operand, end) = read(bytes, next)?;
    Ok(((code, operand), end))
}

// All codes and operands of an image.
#[tactic(auto, using(crate::proofs::Turns::pairs_ended))]
pub(crate) fn read_pairs(bytes: &[u8]) -> Result<Pairs, ImageRefusal>
    ensures { gathered result ≡ pairs_of bytes.now }
{
    let (count, start) = read(bytes, 0)?;
    let count = count as usize;
    if count < 1 || count > MOST_INSTRUCTIONS {
        return Err(ImageRefusal::WrongCount);
    }
    let mut pairs = Pairs::new();
    let mut end = start;
    for _ in 0..count {
        let (pair, next) = read_pair(bytes, end)?;
        pairs.push(pair);
        end = next;
    }
    if end < bytes.len() {
        return Err(ImageRefusal::GoesOn(end));
    }
    Ok(pairs)
}

// The instructions of all pairs of an image.
pub(crate) fn decode(pairs: &[(u32, u32)]) -> Result<Instructions, ImageRefusal>
    requires { length pairs.now ≤ 1024 }
    ensures { held result ≡ decoded pairs.now }
{
    let count = pairs.len() as u16;
    let mut instructions = Instructions::new();
    for (k, (code, operand)) in pairs.iter().enumerate() {
        let instruction = instruction_of(count, *code, *operand).ok_or(
            ImageRefusal::WrongInstruction(k + 1),
        )?;
        instructions.push(instruction);
    }
    Ok(instructions)
}
