//! The program: `oxt < tree.json`.
#![tactic(auto)]

use oxt_transform::{Name, OutOfMemory, ReaderSource, WriterSink, run};
use std::env;
use std::env::Env;
use std::io::ErrorKind;
use std::process::ExitCode;

// The exit status where there is no memory for the words.
const NO_MEMORY: u8 = 6;

fn main(rt: HostRuntime) -> ExitCode {
    match words(&rt) {
        Ok(words) => {
            let mut source = ReaderSource::new(rt.stdin());
            let mut out = WriterSink::new(rt.stdout());
            let mut err = WriterSink::new(rt.stderr());
            let outcome = run(
                rt.alloc(),
                words.as_slice(),
                &mut source,
                &mut out,
                &mut err,
            );
            ExitCode::from(outcome.status())
        }
        Err(OutOfMemory) => ExitCode::from(NO_MEMORY),
    }
}

// The words after the program's name. Words that are no text are given as one that is no flag.
fn words(rt: &(impl Env + AllocGlobal)) -> Result<Vec<Name>, OutOfMemory> {
    let alloc = rt.alloc();
    let mut words = Vec::new(alloc);
    match env::args(rt) {
        Ok(args) => {
            for word in args.skip(1) {
                words.push(Name::from_string(word)?)?;
            }
        }
        Err(error) if error.kind() == ErrorKind::InvalidData => {
            words.push(Name::new(alloc, "\u{fffd}")?)?;
        }
        Err(_) => return Err(OutOfMemory),
    }
    Ok(words)
}
