//! What is said of a stream that is data of another format.

use crate::shell::shell_word;
use jp_grep::Format;
use std::alloc::{AllocError, Global};

/// What data of a format is.
fn words_of(format: Format) -> &'static str {
    match format {
        Format::Gzip => "gzip data",
        Format::Zstd => "zstd data",
        Format::Xz => "xz data",
        Format::Zip => "a zip archive",
        Format::Bzip2 => "bzip2 data",
        Format::Utf16 => "UTF-16 text",
    }
}

/// What is to be done with data of a format first.
fn verb_of(format: Format) -> &'static str {
    match format {
        Format::Utf16 => "convert",
        _ => "unpack",
    }
}

/// The command that makes lines of such data in a file, which is named after it.
fn file_command(format: Format) -> &'static str {
    match format {
        Format::Gzip => "zcat",
        Format::Zstd => "zstdcat",
        Format::Xz => "xzcat",
        Format::Zip => "unzip -p",
        Format::Bzip2 => "bzcat",
        Format::Utf16 => "iconv -f UTF-16 -t UTF-8",
    }
}

/// The command that makes lines of such data in standard input.
fn input_command(format: Format) -> &'static str {
    match format {
        Format::Zip => "funzip",
        _ => file_command(format),
    }
}

/// What is said of a file, or of standard input where there is none, that is data of a format: what it is, and what to do.
pub(crate) fn foreign_message(
    alloc: Global,
    file: Option<&str>,
    format: Format,
) -> Result<String, AllocError> {
    let words = words_of(format);
    let verb = verb_of(format);
    match file {
        Some(file) => {
            let command = file_command(format);
            let file = shell_word(alloc, file)?;
            format!(in alloc; "{words}; {verb} it first: {command} {file} | jpgrep ..")
        }
        None => {
            let command = input_command(format);
            format!(in alloc; "{words}; {verb} it first: {command} | jpgrep ..")
        }
    }
}
