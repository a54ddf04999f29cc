// Shows a packed journal: its entries, the newest first, and how many each process and each row has.
#![tactic(auto)]

use entries::entries_in;
use journal::entry::Entry;
use journal::refusal::LayRefusal;
use program_input::failure::Failure;
use program_input::{asked, ended};
use report::line::lines;
use std::io;
use std::process::ExitCode;
use tally::{Share, Tally};

mod entries;

const USAGE: &str = "usage: inspect [FILE]\n\
Shows the entries of a packed journal, the newest first, and counts them.\n\
With no FILE it reads standard input.";

fn main(rt: HostRuntime) -> ExitCode {
    ended(&rt, run(&rt))
}

// One `run` for both programs, with what is shown as a closure, would borrow the usage for another lifetime.
fn run(rt: &HostRuntime) -> Result<(), Failure<LayRefusal>> {
    let Some(mut bytes) = asked(rt, USAGE)? else {
        rt.println(USAGE)?;
        return Ok(());
    };
    let entries = entries_in(rt.alloc(), bytes.as_mut_slice())?;
    show(rt, entries.as_slice(), bytes.len())
}

fn show(rt: &HostRuntime, entries: &[Entry], bytes: usize) -> Result<(), Failure<LayRefusal>> {
    let lines = lines(rt.alloc(), entries)?;
    let tally = Tally::of(rt.alloc(), entries)?;
    let count = entries.len();
    println!(rt; "entries {count}, bytes {bytes}")?;
    if entries.is_empty() {
        return Ok(());
    }
    println!(rt)?;
    // printed here and for the counts below: a function for these three lines would be called with as many words
    for line in lines.iter() {
        println!(rt; "{line}")?;
    }
    println!(rt)?;
    show_tally(rt, &tally)?;
    Ok(())
}

fn show_tally(rt: &HostRuntime, tally: &Tally) -> io::Result<()> {
    for (owner, entries) in tally.counts.iter() {
        let share = Share {
            owner: *owner,
            entries: *entries,
        };
        println!(rt; "{share}")?;
    }
    Ok(())
}
