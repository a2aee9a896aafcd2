//! Runs of examples.

use crate::difference::{Difference, first_line_difference};
use crate::example::Example;
use jp_cli::run;
use jp_model::{RunFault, Watched};
use std::alloc::{AllocError, Global};
use std::io;
use std::io::Read;

/// The most bytes that a read gives: few, about a block of 64 that is scanned, or all.
const CUTS: [usize; 7] = [1, 2, 3, 63, 64, 65, usize::MAX];

/// Gives a limited number of bytes a read.
#[derive(Drop)]
struct Cutting<'a> {
    rest: &'a [u8],
    most: usize,
}

impl<'a> Cutting<'a> {
    /// Over these bytes.
    fn new(bytes: &'a [u8], most: usize) -> Cutting<'a> {
        Cutting { rest: bytes, most }
    }
}

impl Read for Cutting<'_> {
    fn read(&mut self, buffer: &mut [u8]) -> io::Result<usize> {
        let count = buffer.len().min(self.most).min(self.rest.len());
        let (given, rest) = self.rest.split_at(count);
        buffer[..count].copy_from_slice(given);
        self.rest = rest;
        Ok(count)
    }
}

/// What a run did.
#[derive(Drop)]
struct Ran {
    fault: Option<RunFault>,
    output: Vec<u8>,
    /// How many calls were made in vain.
    after: u64,
}

/// Runs an example with readers that give a limited number of bytes a read.
fn run_cut(alloc: Global, example: &Example, most: usize) -> Ran {
    let mut collection = Watched::new(Cutting::new(&example.collection, most));
    let mut script = Watched::new(Cutting::new(&example.script, most));
    let mut out = Watched::new(Vec::new(alloc));
    let ended = run(
        alloc,
        example.setup(),
        &mut collection,
        &mut script,
        &mut out,
    );
    let after = collection.after().max(script.after()).max(out.after());
    Ran {
        fault: ended.err(),
        output: out.into_inner(),
        after,
    }
}

/// How a run differs from what the example says, if it does.
fn difference(
    alloc: Global,
    example: &Example,
    ran: &Ran,
) -> Result<Option<Difference>, AllocError> {
    if ran.fault != example.fault {
        return Ok(Some(Difference::Ending {
            expected: example.fault,
            got: ran.fault,
        }));
    }
    if let Some(line) = first_line_difference(alloc, &example.output, &ran.output)? {
        return Ok(Some(Difference::Output(line)));
    }
    Ok((ran.after > 0).then_some(Difference::CallAfter))
}

/// How an example differs from what it says, and the most bytes that a read gave in the first run in which it does.
pub(crate) fn first_difference(
    alloc: Global,
    example: &Example,
) -> Result<Option<(usize, Difference)>, AllocError> {
    for most in CUTS {
        let ran = run_cut(alloc, example, most);
        if let Some(difference) = difference(alloc, example, &ran)? {
            return Ok(Some((most, difference)));
        }
    }
    Ok(None)
}
