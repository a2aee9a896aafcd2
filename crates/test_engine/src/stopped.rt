//! Runs that stop in the middle: what came before is whole.

use super::devices::{Cutting, NEVER, Taking};
use super::faults::setup;
use jp_cli::run;
use jp_model::{RunFault, Watched};
use std::alloc::Global;
use std::test::Fail;

/// A collection of one line, without a line feed.
const COLLECTION: &[u8] = b"{\"a\":1}";

/// How the run of a script ended, and what it wrote, where each device fails in one of its calls.
fn stopped(
    alloc: Global,
    collection: Cutting,
    script: Cutting,
    out: Taking,
) -> Result<(Option<RunFault>, Vec<u8>), Fail> {
    let mut collection = Watched::new(collection);
    let mut script = Watched::new(script);
    let mut out = Watched::new(out);
    let ended = run(
        alloc,
        setup(1000, 1000),
        &mut collection,
        &mut script,
        &mut out,
    );
    Ok((ended.err(), out.into_inner().held))
}

#[test]
fn a_write_that_fails_leaves_the_beginning(rt: HostRuntime) -> Result<(), Fail> {
    let alloc = rt.alloc();
    let (fault, held) = stopped(
        alloc,
        Cutting::new(alloc, COLLECTION, 100, NEVER)?,
        Cutting::new(alloc, b"query $.a", 100, NEVER)?,
        Taking::new(alloc, 1, 8, NEVER),
    )?;
    assert_eq!(rt; fault, Some(RunFault::Write));
    assert_eq!(rt; held.as_slice(), b"1\t$['a'".as_slice());
    Ok(())
}

#[test]
fn a_collection_that_fails_is_not_asked(rt: HostRuntime) -> Result<(), Fail> {
    let alloc = rt.alloc();
    let (fault, held) = stopped(
        alloc,
        Cutting::new(alloc, COLLECTION, 3, 2)?,
        Cutting::new(alloc, b"query $.a", 100, NEVER)?,
        Taking::new(alloc, 100, NEVER, NEVER),
    )?;
    assert_eq!(rt; fault, Some(RunFault::ReadCollection));
    assert!(rt; held.is_empty());
    Ok(())
}

#[test]
fn commands_before_a_read_that_fails_are_answered(rt: HostRuntime) -> Result<(), Fail> {
    let alloc = rt.alloc();
    let (fault, held) = stopped(
        alloc,
        Cutting::new(alloc, COLLECTION, 100, NEVER)?,
        Cutting::new(alloc, b"query $.a\nquery $", 100, 2)?,
        Taking::new(alloc, 100, NEVER, NEVER),
    )?;
    assert_eq!(rt; fault, Some(RunFault::ReadScript));
    assert_eq!(rt; held.as_slice(), b"1\t$['a']\t1\n= 1\n".as_slice());
    Ok(())
}
