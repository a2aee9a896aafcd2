//! Runs files of worked examples: what the scripts in them write has to be what the files say.
//!
//! The program's words are the files' names. Standard output gets a line for each file with the number of examples that
//! were run. What is wrong goes to standard error, and then the exit status is 1.
#![tactic(auto)]

mod bytes;
mod difference;
mod example;
mod malformed;
mod parsing;
mod running;
#[cfg(test)]
mod tests;

use crate::example::Example;
use crate::parsing::{Parsed, parse};
use crate::running::first_difference;
use std::alloc::AllocError;
use std::process::ExitCode;
use std::{env, fs};

/// Runs an example, and says where it differs. Answers whether it does not differ.
fn check_example(rt: &HostRuntime, file: &str, example: &Example) -> Result<bool, AllocError> {
    let Some((cut, difference)) = first_difference(rt.alloc(), example)? else {
        return Ok(true);
    };
    let line = example.line;
    let name = example.name.as_str();
    let _ = eprintln!(rt; "{file}:{line}: {name} (at most {cut} bytes a read): {difference}");
    Ok(false)
}

/// Reports the lines that are malformed. Answers whether there are none.
fn tell_malformed(rt: &HostRuntime, file: &str, parsed: &Parsed) -> bool {
    for malformed in &parsed.malformed {
        let line = malformed.line;
        let reason = malformed.reason.message();
        let _ = eprintln!(rt; "{file}:{line}: {reason}");
    }
    if parsed.examples.is_empty() {
        let _ = eprintln!(rt; "{file}: no example");
        return false;
    }
    parsed.malformed.is_empty()
}

/// Runs a file's examples but those with a malformed line, and writes how many were run. Whether nothing was wrong.
fn check_file(rt: &HostRuntime, file: &str) -> Result<bool, AllocError> {
    let Ok(text) = fs::read(rt, file) else {
        let _ = eprintln!(rt; "{file}: cannot be read");
        return Ok(false);
    };
    let parsed = parse(rt.alloc(), &text)?;
    let mut is_right = tell_malformed(rt, file, &parsed);
    let mut count: u64 = 0;
    for example in &parsed.examples {
        if !example.is_malformed {
            is_right &= check_example(rt, file, example)?;
            count = count.saturating_add(1);
        }
    }
    let is_written = println!(rt; "{file}: {count} examples").is_ok();
    Ok(is_right && is_written)
}

/// Runs the files that the program's words name. Whether there is one and nothing was wrong.
fn check_files(rt: &HostRuntime) -> Result<bool, AllocError> {
    let Ok(words) = env::args(rt) else {
        return Err(AllocError);
    };
    let words = words.collect::<Vec<String>>(rt.alloc())?;
    let files = words.get(1..).unwrap_or(&[]);
    if files.is_empty() {
        let _ = eprintln!(rt; "no file is named");
        return Ok(false);
    }
    let mut is_right = true;
    for file in files {
        is_right &= check_file(rt, file.as_str())?;
    }
    Ok(is_right)
}

/// Checks the files of examples that are named, and ends with 0 where all are as written.
fn main(rt: HostRuntime) -> ExitCode {
    match check_files(&rt) {
        Ok(true) => ExitCode::from(0),
        Ok(false) => ExitCode::from(1),
        Err(AllocError) => {
            let _ = eprintln!(rt; "out of memory");
            ExitCode::from(1)
        }
    }
}
