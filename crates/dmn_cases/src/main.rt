//! Runs the program's top call on cases, over a station in memory, and says of each whether all went as wanted.
//!
//! The cases lie in files beside the program; `files.txt` names them. A tool composes them from the words in `cases/`.
#![tactic(auto)]

mod calls;
mod difference;
mod ending;
mod file;
mod files;
mod run;
mod texts;
mod trouble;

use crate::file::Cases;
use std::process::ExitCode;
use std::{fs, io};

/// The file that names the others.
const FILES: &str = "files.txt";

// Reads a file of composed cases line by line, and prints what each line has to say.
fn run_file(rt: &HostRuntime, name: &str, cases: &mut Cases) -> io::Result<()> {
    let text = fs::read_to_string(rt, name)?;
    for line in text.lines() {
        match cases.take(line) {
            Ok(Some(said)) => println!(rt; "{said}")?,
            Ok(None) => {}
            Err(trouble) => {
                cases.count_wrong();
                println!(rt; "WRONG {name}: {trouble}: {line}")?;
            }
        }
    }
    Ok(())
}

// Runs all cases, and says whether all went as wanted.
fn run_all(rt: &HostRuntime) -> io::Result<bool> {
    let names = fs::read_to_string(rt, FILES)?;
    let mut cases = Cases::new(rt.alloc());
    for name in names.lines() {
        run_file(rt, name, &mut cases)?;
    }
    let (count, wrong) = (cases.count(), cases.wrong());
    if wrong == 0 {
        println!(rt; "{count} cases, all as wanted")?;
    } else {
        println!(rt; "{count} cases, {wrong} not as wanted")?;
    }
    Ok(wrong == 0)
}

fn main(rt: HostRuntime) -> ExitCode {
    match run_all(&rt) {
        Ok(true) => ExitCode::SUCCESS,
        _ => ExitCode::FAILURE,
    }
}
