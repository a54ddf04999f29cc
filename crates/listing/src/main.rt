// Shows a script and its mirrored script, an instruction to a line.
#![tactic(auto)]

use mirror::mirror_size;
use program_input::failure::Failure;
use program_input::{asked, ended};
use script::reader::read;
use script::refusal::ImageRefusal;
use script_words::line::lines;
use script_words::mirror_line::mirror_lines;
use std::fmt::Display;
use std::io;
use std::process::ExitCode;

const USAGE: &str = "usage: listing [FILE]\n\
Shows the instructions of a script and of its mirrored script.\n\
FILE is an image; with no FILE it reads standard input.";

fn main(rt: HostRuntime) -> ExitCode {
    ended(&rt, run(&rt))
}

// One `run` for both programs, with what is shown as a closure, would borrow the usage for another lifetime.
fn run(rt: &HostRuntime) -> Result<(), Failure<ImageRefusal>> {
    let Some(bytes) = asked(rt, USAGE)? else {
        rt.println(USAGE)?;
        return Ok(());
    };
    let heap = rt.alloc();
    let script = read(bytes.as_slice()).map_err(Failure::Refused)?;
    let forward = lines(heap, &script)?;
    let mirrored = mirror_lines(heap, &script)?;
    show(rt, "script", forward.as_slice(), bytes.len())?;
    println!(rt)?;
    show(rt, "mirror", mirrored.as_slice(), mirror_size(&script))?;
    Ok(())
}

// A heading, and the lines below it.
fn show<L: Display>(rt: &HostRuntime, title: &str, lines: &[L], bytes: usize) -> io::Result<()> {
    let count = lines.len();
    println!(rt; "{title}: instructions {count}, bytes {bytes}")?;
    println!(rt)?;
    // as in `inspect`: a function for these three lines would be called with as many words
    for line in lines {
        println!(rt; "{line}")?;
    }
    Ok(())
}
