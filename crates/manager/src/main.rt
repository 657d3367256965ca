//! A manager of SNMP version 2c: `manager WORD ADDRESS COMMUNITY REST`.
//!
//! # Entry points
//! `main` hands the words of the command line to `manager_words::run_manager`, over a UDP socket
//! that is bound at the first send.
//!
//! # Definitions
//! None: what the words do stands in `manager_words`.
//!
//! # Laws
//! None.
//!
//! # Not claimed
//! That the words are those of the command line; what UDP delivers and a terminal shows.
#![tactic(auto)]

mod socket;

use manager_core::{FAILED, Failure, ManagerFault, report};
use manager_words::run_manager;
use socket::LateWire;
use std::io::ErrorKind;
use std::process::ExitCode;
use std::{env, io};

fn main(rt: HostRuntime) -> ExitCode {
    let mut errors = rt.stderr();
    let words = match read_words(&rt) {
        Ok(words) => words,
        Err(error) if error.kind() == ErrorKind::OutOfMemory => {
            report(Failure::Fault(ManagerFault::Memory), &mut errors);
            return ExitCode::from(FAILED);
        }
        // words that cannot be read are no command, as no words are
        Err(_) => Vec::new(rt.alloc()),
    };
    let mut wire = LateWire::new(&rt, rt.alloc());
    let mut out = io::writer(&rt);
    ExitCode::from(run_manager(
        rt.alloc(),
        words.as_slice(),
        &mut wire,
        &mut out,
        &mut errors,
    ))
}

// The words of the command line, the program's name first.
fn read_words(rt: &HostRuntime) -> io::Result<Vec<String>> {
    let mut words = Vec::new(rt.alloc());
    for word in env::args(rt)? {
        words.push(word)?;
    }
    Ok(words)
}
