// What a program that shows bytes is asked for, and how it ends.
#![tactic(auto)]

ghost use Rattle.std.specs.Prelude.{◌≡◌, IfErr, MatchResult};
ghost use Rattle.std.specs.Process.{exit_status};
ghost use Rattle.program_input.specs.NoBytes.{NoBytes};

use failure::Failure;
use std::io::Read;
use std::process::ExitCode;
use std::{env, fmt, fs};

pub mod failure;

// The bytes that the words behind the program's name ask for: those of the file that its one word names, or else of standard input.
// None where they ask for help, which is the usage; to print it is left to the caller.
pub fn asked<R: Drop>(rt: &HostRuntime, usage: &'static str) -> Result<Option<Vec<u8>>, Failure<R>>
    ensures { IfErr result (NoBytes) }
{
    // by hand: clap would say the help and the refusals in words of its own
    let mut words = env::args(rt)?.skip(1);
    let Some(word) = words.next() else {
        return Ok(Some(standard_input(rt)?));
    };
    if words.next().is_some() {
        return Err(Failure::Usage(usage));
    }
    if word.as_str() == "--help" {
        return Ok(None);
    }
    let bytes = fs::read(rt, word.as_str()).map_err(|error| Failure::Unread(word, error))?;
    Ok(Some(bytes))
}

fn standard_input<R: Drop>(rt: &HostRuntime) -> Result<Vec<u8>, Failure<R>>
    ensures { IfErr result (NoBytes) }
{
    let mut bytes = Vec::new(rt.alloc());
    rt.stdin().read_to_end(&mut bytes)?;
    Ok(bytes)
}

// A failure is told in its own words, and ends the program with status 1 even where it cannot be told.
pub fn ended<R: fmt::Display + Drop>(rt: &HostRuntime, outcome: Result<(), Failure<R>>) -> ExitCode
    ensures { MatchResult outcome (λ _. exit_status result ≡ 0) (λ _. exit_status result ≡ 1) }
{
    let Err(failure) = outcome else {
        return ExitCode::SUCCESS;
    };
    let _ = eprintln!(rt; "{failure}");
    ExitCode::FAILURE
}
