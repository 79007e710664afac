//! A registry of masternodes that answers request frames.
#![tactic(auto)]

pub use dmn_commands::{Status, dmn_main};
use dmn_outside::HostStation;
use std::alloc::AllocError;
use std::env;
use std::io::ErrorKind;
use std::process::ExitCode;

// The words behind the program's name; none where they are not text.
fn words(rt: &HostRuntime) -> Result<Vec<String>, AllocError> {
    match env::args(rt) {
        Ok(args) => args.skip(1).collect(rt.alloc()),
        Err(error) if error.kind() == ErrorKind::OutOfMemory => Err(AllocError),
        Err(_) => Ok(Vec::new(rt.alloc())),
    }
}

fn main(rt: HostRuntime) -> ExitCode {
    let alloc = rt.alloc();
    let Ok(words) = words(&rt) else {
        return ExitCode::from(Status::Memory.code());
    };
    let mut station = HostStation::new(rt);
    let status = dmn_main(alloc, &words, &mut station);
    station.leave();
    ExitCode::from(status.code())
}
