//! How the program is used, for a person who sees standard error at a terminal.

use crate::words::options::program;
use clap::error::ErrorKind;
use std::alloc::Global;
use std::convert::AsStr;
use std::io::Eprint;

static SCRIPT: [&str; 3] = ["tpcc", "script", "--help"];

static DUMP: [&str; 3] = ["tpcc", "dump", "--help"];

static REQUESTS: [&str; 3] = ["tpcc", "requests", "--help"];

static RUN: [&str; 3] = ["tpcc", "run", "--help"];

/// Writes to standard error what was wrong with the words and how each command is used, in the words of `clap`;
/// of words that ask for the version the version alone. What can't be written is passed over.
pub(crate) fn tell_usage<'a, R: Eprint, S: AsStr>(rt: &R, alloc: Global, words: &'a [S]) {
    if is_told(rt, alloc, words) {
        return;
    }
    is_told(rt, alloc, &SCRIPT);
    is_told(rt, alloc, &DUMP);
    is_told(rt, alloc, &REQUESTS);
    is_told(rt, alloc, &RUN);
}

// Writes what `clap` answers to words that it refuses; whether that was the version.
fn is_told<'a, R: Eprint, S: AsStr>(rt: &R, alloc: Global, words: &'a [S]) -> bool {
    let Ok(command) = program(alloc) else {
        return false;
    };
    match command.try_get_matches_from(words) {
        Ok(_) => false,
        Err(error) => {
            let _ = rt.eprint(&error);
            error.kind() == ErrorKind::DisplayVersion
        }
    }
}
