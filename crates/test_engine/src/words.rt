//! The program's words, and how it ends.

use clap::error::ErrorKind;
use jp_cli::{CollectionSource, End, ScriptSource, read_words};
use jp_model::{Framing, RunFault};
use std::test::Fail;

#[test]
fn reads_the_words(rt: HostRuntime) -> Result<(), Fail> {
    let alone = ["jpq", "c.jsonl"];
    let options = read_words(rt.alloc(), alone.as_slice())?;
    assert!(rt; options.file == "c.jsonl" && options.script.is_none());
    let both = ["jpq", "c.jsonl", "--script", "s"];
    let options = read_words(rt.alloc(), both.as_slice())?;
    assert!(rt; options.file == "c.jsonl" && options.script == Some("s"));
    Ok(())
}

#[test]
fn reads_the_framing(rt: HostRuntime) -> Result<(), Fail> {
    let sequence = ["jpq", "--seq", "f"];
    let options = read_words(rt.alloc(), sequence.as_slice())?;
    assert!(rt; options.file == "f" && options.framing == Framing::Sequence);
    let lines = ["jpq", "f"];
    let options = read_words(rt.alloc(), lines.as_slice())?;
    assert!(rt; options.file == "f" && options.framing == Framing::Lines);
    Ok(())
}

#[test]
fn reads_the_commands_in_their_order(rt: HostRuntime) -> Result<(), Fail> {
    let words = [
        "jpq",
        "-c",
        "index $.a",
        "-",
        "--command",
        "query $.a",
        "-ccheck",
    ];
    let options = read_words(rt.alloc(), words.as_slice())?;
    assert_eq!(rt;
        options.collection_source(),
        CollectionSource::StandardInput
    );
    match options.script_source(rt.alloc())? {
        ScriptSource::Commands(script) => {
            assert!(rt; script.as_str() == "index $.a\nquery $.a\ncheck\n")
        }
        _ => assert!(rt; false),
    }
    Ok(())
}

#[test]
fn the_script_is_a_file_or_standard_input(rt: HostRuntime) -> Result<(), Fail> {
    let named = ["jpq", "-", "--script", "s"];
    let options = read_words(rt.alloc(), named.as_slice())?;
    assert_eq!(rt;
        options.collection_source(),
        CollectionSource::StandardInput
    );
    assert!(rt; matches!(options.script_source(rt.alloc())?, ScriptSource::File("s")));
    let none = ["jpq", "./-"];
    let options = read_words(rt.alloc(), none.as_slice())?;
    assert_eq!(rt; options.collection_source(), CollectionSource::File("./-"));
    assert!(rt;
        matches!(
            options.script_source(rt.alloc())?,
            ScriptSource::StandardInput
        )
    );
    Ok(())
}

#[test]
fn refuses_two_scripts_and_none(rt: HostRuntime) {
    let two = ["jpq", "f", "--script", "s", "-c", "check"];
    match read_words(rt.alloc(), two.as_slice()) {
        Ok(_) => assert!(rt; false),
        Err(error) => {
            assert!(rt; error.kind() == ErrorKind::ArgumentConflict && error.exit_code() == 2)
        }
    }
    let none = ["jpq", "-"];
    match read_words(rt.alloc(), none.as_slice()) {
        Ok(_) => assert!(rt; false),
        Err(error) => {
            assert!(rt;
                error.kind() == ErrorKind::MissingRequiredArgument && error.exit_code() == 2
            )
        }
    }
}

#[test]
fn refuses_words(rt: HostRuntime) {
    let none = ["jpq"];
    match read_words(rt.alloc(), none.as_slice()) {
        Ok(_) => assert!(rt; false),
        Err(error) => assert!(rt; error.exit_code() == 2),
    }
    let unknown = ["jpq", "c.jsonl", "--frob"];
    match read_words(rt.alloc(), unknown.as_slice()) {
        Ok(_) => assert!(rt; false),
        Err(error) => assert!(rt; error.exit_code() == 2),
    }
    let help = ["jpq", "--help"];
    match read_words(rt.alloc(), help.as_slice()) {
        Ok(_) => assert!(rt; false),
        Err(error) => assert!(rt; error.exit_code() == 0),
    }
    let version = ["jpq", "--version"];
    match read_words(rt.alloc(), version.as_slice()) {
        Ok(_) => assert!(rt; false),
        Err(error) => assert!(rt; error.kind() == ErrorKind::DisplayVersion),
    }
}

#[test]
fn tells_each_end(rt: HostRuntime) {
    let ends = [
        (End::Done, 0, ""),
        (End::Words, 2, ""),
        (End::NoCollection, 3, "jpq: cannot open collection"),
        (End::NoScript, 4, "jpq: cannot open script"),
        (
            End::Run(RunFault::ReadCollection),
            11,
            "jpq: cannot read collection",
        ),
        (End::Run(RunFault::Size), 12, "jpq: collection too large"),
        (
            End::Run(RunFault::Framing),
            13,
            "jpq: bytes before first separator",
        ),
        (
            End::Run(RunFault::ReadScript),
            14,
            "jpq: cannot read script",
        ),
        (End::Run(RunFault::Write), 15, "jpq: cannot write"),
        (End::Run(RunFault::Memory), 16, "jpq: out of memory"),
        (End::Memory, 16, "jpq: out of memory"),
    ];
    for (end, status, message) in ends {
        assert!(rt; end.status() == status);
        assert!(rt; end.message() == message);
    }
}
