//! The program: it reads the words of its command line, does what they say, and ends with the status of the outcome.
#![tactic(auto)]

mod top;

use command_phases::out_of_memory;
use std::alloc::AllocError;
use std::env;
use std::io::ErrorKind;
use std::process::ExitCode;
use std::rt::Env;
use top::chocola;
use worker_gate::NoGate;
use world_io::{HostErr, HostFiles, HostOut};

fn main(rt: HostRuntime) -> ExitCode {
    let mut err = HostErr::new(rt.stderr());
    let outcome = match command_words(&rt) {
        Ok(words) => chocola(
            &rt,
            rt.alloc(),
            words.as_slice(),
            &mut HostFiles::new(&rt),
            &mut HostOut::new(rt.stdout()),
            &mut err,
            &NoGate,
        ),
        Err(AllocError) => out_of_memory(rt.alloc(), &mut err),
    };
    ExitCode::from(outcome.status)
}

/// The words after the program's name, and none where the host doesn't give them as text.
fn command_words<R: Env + AllocGlobal>(rt: &R) -> Result<Vec<String>, AllocError> {
    match env::args(rt) {
        Ok(words) => words.skip(1).collect(rt.alloc()),
        Err(error) if error.kind() == ErrorKind::OutOfMemory => Err(AllocError),
        Err(_) => Ok(Vec::new(rt.alloc())),
    }
}
