//! The program's run through a buffer: what its writer took, and the end that is told, where a call of the writer fails.

use super::devices::{Cutting, NEVER, Taking};
use jp_cli::{End, Framing, Options, RunFault};
use jp_model::Watched;
use std::alloc::Global;
use std::test::Fail;

/// A sequence of one text, after its record separator.
const SEQUENCE: &[u8] = b"\x1e{\"a\":1}\n";

/// What `query $.a` answers over it.
const ROWS: &[u8] = b"\x1e1\t$['a']\t1\n= 1\n";

/// The end of a run over a sequence, and what its writer took.
fn ended(alloc: Global, script: Cutting, out: Taking) -> Result<(End, Vec<u8>), Fail> {
    let options = Options {
        file: "sequence",
        script: None,
        commands: Vec::new(alloc),
        framing: Framing::Sequence,
    };
    let mut collection = Watched::new(SEQUENCE);
    let mut script = Watched::new(script);
    let finished = options.run(alloc, &mut collection, &mut script, Watched::new(out))?;
    Ok((finished.end, finished.out.into_inner().held))
}

#[test]
fn all_is_written_at_the_end(rt: HostRuntime) -> Result<(), Fail> {
    let alloc = rt.alloc();
    let script = Cutting::new(alloc, b"query $.a", 100, NEVER)?;
    let (end, held) = ended(alloc, script, Taking::new(alloc, 1, NEVER, NEVER))?;
    assert_eq!(rt; end, End::Done);
    assert_eq!(rt; held.as_slice(), ROWS);
    Ok(())
}

#[test]
fn a_last_write_that_fails_is_told(rt: HostRuntime) -> Result<(), Fail> {
    let alloc = rt.alloc();
    let script = Cutting::new(alloc, b"query $.a", 100, NEVER)?;
    let (end, held) = ended(alloc, script, Taking::new(alloc, 1, 4, NEVER))?;
    assert_eq!(rt; end, End::Run(RunFault::Write));
    assert_eq!(rt; held.as_slice(), b"\x1e1\t".as_slice());
    Ok(())
}

#[test]
fn a_last_flush_that_fails_is_told(rt: HostRuntime) -> Result<(), Fail> {
    let alloc = rt.alloc();
    let script = Cutting::new(alloc, b"query $.a", 100, NEVER)?;
    let mut out = Taking::new(alloc, 100, NEVER, NEVER);
    out.failing_flush = 1;
    let (end, held) = ended(alloc, script, out)?;
    assert_eq!(rt; end, End::Run(RunFault::Write));
    assert_eq!(rt; held.as_slice(), ROWS);
    Ok(())
}

#[test]
fn answers_before_a_read_that_fails_are_written(rt: HostRuntime) -> Result<(), Fail> {
    let alloc = rt.alloc();
    let script = Cutting::new(alloc, b"query $.a\ncheck", 100, 2)?;
    let (end, held) = ended(alloc, script, Taking::new(alloc, 100, NEVER, NEVER))?;
    assert_eq!(rt; end, End::Run(RunFault::ReadScript));
    assert_eq!(rt; held.as_slice(), ROWS);
    Ok(())
}
