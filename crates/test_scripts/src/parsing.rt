//! The form of the files.
//!
//! A line `== NAME` begins an example and names it. Of the lines after it, `| TEXT` is a line of the collection, `> TEXT`
//! one of the script, and `< TEXT` one that is written. `framing: sequence` makes the collection a JSON text sequence (RFC
//! 7464), `most: N` and `script most: N` are the most bytes that the collection and the script may have, and `ends: size`,
//! `ends: framing` and `ends: read script` say why the run stops before its end. A line that begins with `#` is a comment.

use crate::bytes::append_line;
use crate::example::Example;
use crate::malformed::{LineFault, Malformed, Reason};
use jp_model::{Framing, RunFault};
use std::alloc::{AllocError, Global};

/// What is in a file.
#[derive(Drop)]
pub(crate) struct Parsed {
    pub(crate) examples: Vec<Example>,
    pub(crate) malformed: Vec<Malformed>,
}

/// Reads a file's examples.
pub(crate) fn parse(alloc: Global, text: &[u8]) -> Result<Parsed, AllocError> {
    let mut parsed = Parsed {
        examples: Vec::new(alloc),
        malformed: Vec::new(alloc),
    };
    let mut number: u64 = 0;
    for line in text.split(|byte| *byte == b'\n') {
        number = number.saturating_add(1);
        match parsed.take_line(alloc, number, line) {
            Ok(()) => {}
            Err(LineFault::Malformed(reason)) => parsed.refuse(number, reason)?,
            Err(LineFault::Memory) => return Err(AllocError),
        }
    }
    Ok(parsed)
}

impl Parsed {
    /// Takes the file's next line, without its line feed.
    fn take_line(&mut self, alloc: Global, number: u64, line: &[u8]) -> Result<(), LineFault> {
        let Ok(line) = str::from_utf8(line) else {
            return Err(Reason::NotUtf8.into());
        };
        if line.is_empty() || line.starts_with('#') {
            return Ok(());
        }
        if let Some(name) = line.strip_prefix("==") {
            self.examples
                .push(Example::new(alloc, name.trim(), number)?)?;
            return check_name(name);
        }
        match self.examples.last_mut() {
            Some(example) => take_part(example, line),
            None => Err(Reason::BeforeFirst.into()),
        }
    }

    /// Notes that a line is malformed, and with it its example.
    fn refuse(&mut self, line: u64, reason: Reason) -> Result<(), AllocError> {
        if let Some(example) = self.examples.last_mut() {
            example.is_malformed = true;
        }
        self.malformed.push(Malformed { line, reason })?;
        Ok(())
    }
}

/// Checks what follows the mark of a line that begins an example.
fn check_name(name: &str) -> Result<(), LineFault> {
    if name.trim().is_empty() {
        return Err(Reason::NoName.into());
    }
    if !name.starts_with(' ') {
        return Err(Reason::NoSpace.into());
    }
    Ok(())
}

/// Takes a line of an example, after its first.
fn take_part(example: &mut Example, line: &str) -> Result<(), LineFault> {
    if let Some(text) = line.strip_prefix('|') {
        append_line(&mut example.collection, text_behind(text)?)
    } else if let Some(text) = line.strip_prefix('>') {
        append_line(&mut example.script, text_behind(text)?)
    } else if let Some(text) = line.strip_prefix('<') {
        append_line(&mut example.output, text_behind(text)?)
    } else if let Some((key, value)) = line.split_once(": ") {
        Ok(take_setting(example, key, value)?)
    } else {
        Err(Reason::UnknownMark.into())
    }
}

/// The text after a mark and a space. The mark may stand alone.
fn text_behind(behind: &str) -> Result<&str, Reason> {
    if behind.is_empty() {
        return Ok(behind);
    }
    behind.strip_prefix(' ').ok_or(Reason::NoSpace)
}

/// Takes a setting of an example.
fn take_setting(example: &mut Example, key: &str, value: &str) -> Result<(), Reason> {
    match key {
        "framing" => set(&mut example.framing, framing_of(value)?),
        "most" => set(&mut example.most, number_of(value)?),
        "script most" => set(&mut example.script_most, number_of(value)?),
        "ends" => set(&mut example.fault, fault_of(value)?),
        _ => Err(Reason::UnknownKey),
    }
}

/// Sets what is not set yet.
fn set<T: Drop>(setting: &mut Option<T>, value: T) -> Result<(), Reason> {
    if setting.is_some() {
        return Err(Reason::Repeated);
    }
    *setting = Some(value);
    Ok(())
}

/// The framing that a word names.
fn framing_of(value: &str) -> Result<Framing, Reason> {
    if value == "sequence" {
        Ok(Framing::Sequence)
    } else {
        Err(Reason::UnknownFraming)
    }
}

/// The number that digits spell.
fn number_of(value: &str) -> Result<u32, Reason> {
    if !value.bytes().all(|digit| digit.is_ascii_digit()) {
        return Err(Reason::Number);
    }
    value.parse::<u32>().map_err(|_| Reason::Number)
}

/// The fault that words name, with which a run ends.
fn fault_of(value: &str) -> Result<RunFault, Reason> {
    match value {
        "size" => Ok(RunFault::Size),
        "framing" => Ok(RunFault::Framing),
        "read script" => Ok(RunFault::ReadScript),
        _ => Err(Reason::UnknownEnding),
    }
}
