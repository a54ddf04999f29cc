// Reading a script from its image. Each stage judges the whole image before the next one begins.
ghost use Rattle.std.specs.Prelude.{◌≡◌, true, IfOk};
ghost use Rattle.script.specs.Images.{instructions_read, has_image, judged, read_image, ImagesAndScripts, OneImage};
ghost use Rattle.script.specs.Flow.{AcceptedScriptsFlow};
ghost use Rattle.script.specs.Held.{list_of};
ghost use Rattle.script.specs.Calls.{held, answered};

use crate::instructions::Instructions;
use crate::links::judging::link;
use crate::pairs::{decode, read_pairs};
use crate::references::check_references;
use crate::refusal::ImageRefusal;
use crate::script::Script;

// The instructions of an image.
fn read_instructions(bytes: &[u8]) -> Result<Instructions, ImageRefusal>
    ensures answer { held result ≡ instructions_read bytes.now }
    ensures image { IfOk result (λ instructions. has_image (list_of instructions) ≡ true) }
{
    let pairs = read_pairs(bytes)?;
    decode(pairs.as_slice())
}

// The script of instructions that an image can hold.
fn judge(instructions: Instructions) -> Result<Script, ImageRefusal>
    requires { has_image (list_of instructions) ≡ true }
    ensures { answered result ≡ judged (list_of instructions) }
{
    let links = link(&instructions)?;
    check_references(&instructions, &links)?;
    Ok(Script {
        instructions,
        partners: links.partners,
    })
}

// The script of an image, or why it is none.
pub fn read(bytes: &[u8]) -> Result<Script, ImageRefusal>
    ensures answer { answered result ≡ read_image bytes.now }
    ensures back { ImagesAndScripts }
    ensures unique { OneImage }
    ensures flow { AcceptedScriptsFlow }
{
    let instructions = read_instructions(bytes)?;
    judge(instructions)
}
