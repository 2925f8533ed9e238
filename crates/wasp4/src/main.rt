//! The program: plans by a script from standard input, or checks the certificates in one, and writes the report to
//! standard output.
//!
//! `run` is the top call, and its clause is the main theorem: the bytes written are the text defined from the
//! lines alone, and each key is simulated once. It reads lines (`line_reader`, `deck_lines`), hands each to a session
//! (`wasp_session`), and puts what the session says; what a script is and how it ends is defined here.
#![tactic(auto)]

ghost use Rattle.std.specs.Prelude.{◌≡◌};

mod asked;
mod clerk;
mod hours;
mod laws;
mod putting;
mod status;
mod top;
mod trial;
mod turn;
mod words;

pub use asked::Asked;
pub use laws::{texts_are_one, texts_go_on, trials_are_one, workers_write_one_text};
use sim_engine::StackEngine;
use sim_sweep::Tally;
pub use status::{Ending, Status};
use std::alloc::Global;
use std::process::ExitCode;
use std::rt::Env;
use std::{env, io};
pub use top::run;
pub use trial::TrialNumbers;
use wasp_fixed::OutOfMemory;
use wasp_io::{StdSink, StdSource};
pub use words::CommandWords;

#[cfg(test)]
mod tests;

/// The most engines that can be asked for.
const MOST_ENGINES: usize = 64;

/// The words after the program's name; none where they cannot be read, as bytes that are no text.
fn read_words(rt: &(impl Env + AllocGlobal), alloc: Global) -> Result<CommandWords, OutOfMemory> {
    let mut words = CommandWords::new(alloc);
    let args = match env::args(rt) {
        Ok(args) => args,
        Err(error) if error.kind() == io::ErrorKind::OutOfMemory => return Err(OutOfMemory),
        Err(_) => return Ok(words),
    };
    for word in args.skip(1) {
        words.push(&word)?;
    }
    Ok(words)
}

/// As many engines as may be asked for. One takes memory only once it works.
fn make_engines(alloc: Global) -> Result<Vec<StackEngine>, OutOfMemory> {
    let mut engines = Vec::new(alloc);
    for _ in 0..MOST_ENGINES {
        engines.push(StackEngine::new(alloc))?;
    }
    Ok(engines)
}

fn main(rt: HostRuntime) -> ExitCode {
    let alloc = rt.alloc();
    let Ok(words) = read_words(&rt, alloc) else {
        return ExitCode::from(Status::OutOfMemory.exit());
    };
    let mut source = StdSource::new(rt.reader());
    let mut sink = StdSink::new(io::writer(&rt));
    let Ok(mut engines) = make_engines(alloc) else {
        return ExitCode::from(Status::OutOfMemory.exit());
    };
    let mut tally = Tally::new();
    let status = run(
        &rt,
        alloc,
        &words,
        &mut engines,
        &mut source,
        &mut sink,
        &mut tally,
    );
    ExitCode::from(status.exit())
}
