//! Runs that stop: what was written, and how often each device was called.

ghost use Rattle.std.specs.Prelude.{◌≡◌};
ghost use Rattle.jp_model.specs.declared.Framing.TheVariants as framings;

use super::devices::{Cutting, Endless, NEVER, Taking};
use jp_cli::run;
use jp_model::{Framing, RunFault, Setup, Watched};
use std::alloc::Global;
use std::test::Fail;

/// A collection of one line.
const COLLECTION: &[u8] = b"{\"a\":1}\n";

/// What `query $.a` answers over it.
const OUTPUT: &[u8] = b"1\t$['a']\t1\n= 1\n";

/// A collection of lines, with limits for its bytes and for those of the script.
pub(super) const fn setup(most: u32, script_most: u32) -> Setup
    ensures { result.framing ≡ framings.Lines }
{
    Setup {
        framing: Framing::Lines,
        most,
        script_most,
    }
}

#[test]
fn each_write_fails_once(rt: HostRuntime) -> Result<(), Fail> {
    for n in 1..=16u64 {
        for takes_none in [false, true] {
            let mut collection = Watched::new(Cutting::new(rt.alloc(), COLLECTION, 1, NEVER)?);
            let mut script = Watched::new(Cutting::new(rt.alloc(), b"query $.a", 1, NEVER)?);
            let (fails_in, takes_none_in) = if takes_none { (NEVER, n) } else { (n, NEVER) };
            let mut out = Watched::new(Taking::new(rt.alloc(), 1, fails_in, takes_none_in));
            let ended = run(
                rt.alloc(),
                setup(100, 100),
                &mut collection,
                &mut script,
                &mut out,
            );
            let calls = out.calls();
            assert_eq!(rt; out.after(), 0);
            let held = out.into_inner().held;
            let received = OUTPUT.get(..n as usize - 1).ok_or("short")?;
            assert_eq!(rt; held.as_slice(), received);
            assert_eq!(rt;
                ended,
                if n == 16 {
                    Ok(())
                } else {
                    Err(RunFault::Write)
                }
            );
            assert_eq!(rt; calls, n.min(15));
        }
    }
    Ok(())
}

#[test]
fn each_read_of_the_collection_fails_once(rt: HostRuntime) -> Result<(), Fail> {
    for n in 1..=9u64 {
        let mut collection = Watched::new(Cutting::new(rt.alloc(), COLLECTION, 1, n)?);
        let mut script = Watched::new(Cutting::new(rt.alloc(), b"query $.a", 1, NEVER)?);
        let mut out = Watched::new(Taking::new(rt.alloc(), 1, NEVER, NEVER));
        let ended = run(
            rt.alloc(),
            setup(100, 100),
            &mut collection,
            &mut script,
            &mut out,
        );
        assert_eq!(rt; ended, Err(RunFault::ReadCollection));
        assert_eq!(rt; collection.calls(), n);
        assert_eq!(rt; collection.after(), 0);
        assert_eq!(rt; script.calls(), 0);
        assert_eq!(rt; out.calls(), 0);
    }
    Ok(())
}

#[test]
fn each_read_of_the_script_fails_once(rt: HostRuntime) -> Result<(), Fail> {
    for n in 1..=11u64 {
        let mut collection = Watched::new(Cutting::new(rt.alloc(), COLLECTION, 1, NEVER)?);
        let mut script = Watched::new(Cutting::new(rt.alloc(), b"query $.a\n", 1, n)?);
        let mut out = Watched::new(Taking::new(rt.alloc(), 1, NEVER, NEVER));
        let ended = run(
            rt.alloc(),
            setup(100, 100),
            &mut collection,
            &mut script,
            &mut out,
        );
        let held = out.into_inner().held;
        assert_eq!(rt; ended, Err(RunFault::ReadScript));
        assert_eq!(rt; script.calls(), n);
        assert_eq!(rt; script.after(), 0);
        let received = if n == 11 { OUTPUT } else { b"".as_slice() };
        assert_eq!(rt; held.as_slice(), received);
    }
    Ok(())
}

#[test]
fn readers_that_never_end_are_too_long(rt: HostRuntime) -> Result<(), Fail> {
    let mut collection = Watched::new(Endless::new(b"x"));
    let mut script = Watched::new(Endless::new(b"query $.a\n"));
    let mut out = Watched::new(Taking::new(rt.alloc(), 9, NEVER, NEVER));
    let ended = run(
        rt.alloc(),
        setup(5, 100),
        &mut collection,
        &mut script,
        &mut out,
    );
    assert_eq!(rt; ended, Err(RunFault::Size));
    assert_eq!(rt; collection.calls(), 6);
    assert_eq!(rt; collection.after(), 0);
    assert_eq!(rt; script.calls(), 0);
    let mut collection = Watched::new(Cutting::new(rt.alloc(), COLLECTION, 9, NEVER)?);
    let ended = run(
        rt.alloc(),
        setup(100, 23),
        &mut collection,
        &mut script,
        &mut out,
    );
    assert_eq!(rt; ended, Err(RunFault::ReadScript));
    assert_eq!(rt; script.calls(), 24);
    assert_eq!(rt; script.after(), 0);
    let mut twice = Vec::from_slice(rt.alloc(), OUTPUT)?;
    twice.extend_from_slice(OUTPUT)?;
    assert_eq!(rt; out.into_inner().held.as_slice(), twice.as_slice());
    Ok(())
}

#[test]
fn a_run_that_ends_well_makes_no_call_too_many(rt: HostRuntime) -> Result<(), Fail> {
    for (most, collection_calls, script_calls) in [(1, 9, 11), (3, 4, 5), (100, 2, 2)] {
        let mut collection = Watched::new(Cutting::new(rt.alloc(), COLLECTION, most, NEVER)?);
        let mut script = Watched::new(Cutting::new(rt.alloc(), b"query $.a\n", most, NEVER)?);
        let mut out = Watched::new(Taking::new(rt.alloc(), 100, NEVER, NEVER));
        let ended = run(
            rt.alloc(),
            setup(100, 100),
            &mut collection,
            &mut script,
            &mut out,
        );
        assert_eq!(rt; ended, Ok(()));
        assert!(rt; collection.ended());
        assert!(rt; script.ended());
        assert_eq!(rt; collection.calls(), collection_calls);
        assert_eq!(rt; script.calls(), script_calls);
        // The row, the three pieces of the line that counts the rows, and a flush.
        assert_eq!(rt; out.calls(), 5);
        assert_eq!(rt; collection.after(), 0);
        assert_eq!(rt; script.after(), 0);
        assert_eq!(rt; out.after(), 0);
        assert_eq!(rt; out.into_inner().held.as_slice(), OUTPUT);
    }
    Ok(())
}

/// Runs a script whose reads bring a given number of bytes each, and returns the end, the flushes, the bytes that were received,
/// and the calls of the writer after one that failed.
fn flushed(
    alloc: Global,
    script: &[u8],
    piece: usize,
    failing_flush: u64,
) -> Result<(Result<(), RunFault>, u64, usize, u64), Fail> {
    let mut collection = Watched::new(Cutting::new(alloc, COLLECTION, 100, NEVER)?);
    let mut script = Watched::new(Cutting::new(alloc, script, piece, NEVER)?);
    let mut taking = Taking::new(alloc, 100, NEVER, NEVER);
    taking.failing_flush = failing_flush;
    let mut out = Watched::new(taking);
    let ended = run(
        alloc,
        setup(100, 100),
        &mut collection,
        &mut script,
        &mut out,
    );
    let after = out.after();
    let taking = out.into_inner();
    Ok((ended, taking.flushes, taking.held.len(), after))
}

#[test]
fn answers_are_flushed_before_the_next_read(rt: HostRuntime) -> Result<(), Fail> {
    let script = b"query $.a\nquery $.a\n\n";
    // The first answer has 15 bytes, and both have 30.
    for (piece, failing_flush, flushes, bytes) in [
        (10, NEVER, 2, 30),
        (1, NEVER, 2, 30),
        (100, NEVER, 1, 30),
        (10, 1, 1, 15),
        (100, 1, 1, 30),
    ] {
        let (ended, count, received, after) = flushed(rt.alloc(), script, piece, failing_flush)?;
        let wanted = if failing_flush == NEVER {
            Ok(())
        } else {
            Err(RunFault::Write)
        };
        assert_eq!(rt; ended, wanted);
        assert_eq!(rt; count, flushes);
        assert_eq!(rt; received, bytes);
        assert_eq!(rt; after, 0);
    }
    let (ended, count, received, _) = flushed(rt.alloc(), b"\n\n", 1, NEVER)?;
    assert_eq!(rt; ended, Ok(()));
    assert_eq!(rt; count, 0);
    assert_eq!(rt; received, 0);
    Ok(())
}

#[test]
fn no_read_goes_on_behind_the_byte_past_a_limit(rt: HostRuntime) -> Result<(), Fail> {
    // The script has 30 bytes. Reads of at most N bytes come to the byte past a limit of 15 in 16 / N calls, rounded up.
    for (most, calls) in [(1, 16), (3, 6), (15, 2), (100, 1)] {
        let mut collection = Watched::new(Cutting::new(rt.alloc(), COLLECTION, 100, NEVER)?);
        let script = b"query $.a\nquery $.a\nquery $.a\n";
        let mut script = Watched::new(Cutting::new(rt.alloc(), script, most, NEVER)?);
        let mut out = Watched::new(Taking::new(rt.alloc(), 100, NEVER, NEVER));
        let ended = run(
            rt.alloc(),
            setup(100, 15),
            &mut collection,
            &mut script,
            &mut out,
        );
        assert_eq!(rt; ended, Err(RunFault::ReadScript));
        assert_eq!(rt; script.calls(), calls);
        assert_eq!(rt; script.after(), 0);
        assert!(rt; !script.ended());
        assert_eq!(rt; script.into_inner().given(), 16);
        assert_eq!(rt; out.into_inner().held.as_slice(), OUTPUT);
    }
    Ok(())
}

#[test]
fn what_came_unflushed_is_flushed_before_the_script_is_read(rt: HostRuntime) -> Result<(), Fail> {
    for failing_flush in [NEVER, 1] {
        let mut collection = Watched::new(Cutting::new(rt.alloc(), COLLECTION, 100, NEVER)?);
        let mut script = Watched::new(Cutting::new(rt.alloc(), b"\n", 100, NEVER)?);
        let mut taking = Taking::new(rt.alloc(), 100, NEVER, NEVER);
        taking.failing_flush = failing_flush;
        let mut out = Watched::new(taking);
        if out.write(b"before\n").is_err() {
            return Err("the writer takes nothing".into());
        }
        if out.failed() {
            return Err("the writer failed".into());
        }
        let ended = run(
            rt.alloc(),
            setup(100, 100),
            &mut collection,
            &mut script,
            &mut out,
        );
        if failing_flush == NEVER {
            assert_eq!(rt; ended, Ok(()));
            assert_eq!(rt; script.calls(), 2);
        } else {
            assert_eq!(rt; ended, Err(RunFault::Write));
            assert_eq!(rt; script.calls(), 0);
        }
        let taking = out.into_inner();
        assert_eq!(rt; taking.flushes, 1);
        assert_eq!(rt; taking.held.as_slice(), b"before\n".as_slice());
    }
    Ok(())
}
