// Writes the mirrored script of a script as an image.
#![tactic(auto)]

ghost use Rattle.std.specs.Prelude.{◌≡◌, ◌+◌, ◌≤◌, length};
ghost use Rattle.varint.specs.Writings.{writing};
ghost use Rattle.varint.specs.Written.{Wrote};
ghost use Rattle.script.specs.Calls.{instructions_of};
ghost use Rattle.script.specs.Images.{pair_bytes};
ghost use Rattle.mirror.specs.Mirrored.{mirror_pair, mirror_bytes, mirror_image};

use instruction::instruction::Instruction;
use refusal::MirrorRefusal;
use script::script::Script;
use varint::number::{NoRoom, size, write};

pub mod refusal;

// The code and the operand of an instruction's mirror.
fn mirror_pair(instruction: Instruction) -> (u32, u32)
    ensures { result ≡ mirror_pair instruction }
{
    instruction.mirror().code_and_operand()
}

fn pair_size(pair: (u32, u32)) -> usize
    ensures exact { result ≡ length (pair_bytes pair) }
    ensures few { result ≤ 10 }
{
    size(pair.0) + size(pair.1)
}

// How many bytes the codes and operands of the mirrors take: all of the mirrored script but its count.
#[tactic(auto, using(crate::proofs::Mirroring::length_bytes))]
fn pairs_size(instructions: &[Instruction]) -> usize
    requires { length instructions.now ≤ 1024 }
    ensures exact { result ≡ length (mirror_bytes instructions.now) }
    ensures few { result ≤ 10240 }
{
    instructions
        .iter()
        .map(|instruction| pair_size(mirror_pair(*instruction)))
        .sum()
}

// How many bytes the mirrored script takes.
#[tactic(auto, using(crate::proofs::Mirroring::length_image))]
pub fn mirror_size(script: &Script) -> usize
    ensures { result ≡ length (mirror_image (instructions_of script.now)) }
{
    size(script.count() as u32) + pairs_size(script.instructions())
}

// Writes a code and an operand from a place on, and answers the place after them.
fn put_pair(bytes: &mut [u8], at: usize, pair: (u32, u32)) -> Result<usize, NoRoom>
    requires { at + length (pair_bytes pair) ≤ length bytes.old }
    ensures { Wrote bytes.old at (pair_bytes pair) result bytes.new }
{
    let operand_at = write(bytes, at, pair.0)?;
    write(bytes, operand_at, pair.1)
}

// Writes the codes and operands of the mirrors from a place on, from the last instruction down to the first.
fn put_pairs(script: &Script, bytes: &mut [u8], at: usize) -> Result<usize, NoRoom>
    requires { at + length (mirror_bytes (instructions_of script.now)) ≤ length bytes.old }
    ensures { Wrote bytes.old at (mirror_bytes (instructions_of script.now)) result bytes.new }
{
    let mut end = at;
    for instruction in script.instructions().iter().rev() {
        end = put_pair(bytes, end, mirror_pair(*instruction))?;
    }
    Ok(end)
}

// Writes the mirrored script at the front of a buffer that has room for it, and answers its length.
// Script and buffer go together through three functions: a struct of the two would be taken apart at once in each.
fn put_mirror(script: &Script, buffer: &mut [u8]) -> Result<usize, NoRoom>
    requires { length (mirror_image (instructions_of script.now)) ≤ length buffer.old }
    ensures { Wrote buffer.old 0 (mirror_image (instructions_of script.now)) result buffer.new }
{
    let pairs_at = write(buffer, 0, script.count() as u32)?;
    put_pairs(script, buffer, pairs_at)
}

// Writes the mirrored script at the front of a buffer, and answers its length; where it does not fit, nothing is written.
pub fn write_mirror(script: &Script, buffer: &mut [u8]) -> Result<usize, MirrorRefusal>
    ensures { Wrote buffer.old 0 (mirror_image (instructions_of script.now)) result buffer.new }
{
    if buffer.len() < mirror_size(script) {
        return Err(MirrorRefusal::BufferTooShort);
    }
    Ok(put_mirror(script, buffer)?)
}
