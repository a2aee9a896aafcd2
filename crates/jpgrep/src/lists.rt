//! The lists of `--in` and `--not-in`.

use crate::asked::AskedList;
use crate::files::{IS_DIRECTORY, STANDARD_INPUT, message_of, open_message};
use crate::foreign::foreign_message;
use crate::refusal::Refusal;
use jp_devices::StandardInput;
use jp_grep::{Input, Listed, Question, SearchFault, read_list};
use jp_model::Watched;
use jp_options::Options;
use jp_shown::shown;
use std::alloc::AllocError;
use std::fs;
use std::io::Read;

/// How the lists were read.
#[derive(Clone, Copy, PartialEq, Eq)]
pub(crate) enum Lists {
    /// Each line of each of them is a value, or blank.
    Read,
    /// Some lines are refused.
    ReadInPart,
    /// One could not be read to its end.
    Unread,
}

/// What reads the lists.
#[derive(Drop)]
struct ListReader<'r> {
    rt: &'r HostRuntime,
    /// Whether a line of a list was refused.
    has_refused: bool,
}

impl<'r> ListReader<'r> {
    /// Tells why a list was not read, and gives none.
    fn tell(&self, name: &str, message: &str) -> Option<Listed> {
        let _ = eprintln!(self.rt; "jpgrep: {name}: {message}");
        None
    }

    /// Tells that a list was not read to its end.
    fn tell_fault(&self, name: &str, fault: SearchFault) -> Result<Option<Listed>, AllocError> {
        match fault {
            SearchFault::Memory => Err(AllocError),
            SearchFault::Foreign(format) => {
                let file = if name == STANDARD_INPUT {
                    None
                } else {
                    Some(name)
                };
                let message = foreign_message(self.rt.alloc(), file, format)?;
                Ok(self.tell(name, &message))
            }
            fault => Ok(self.tell(name, message_of(fault))),
        }
    }

    /// Reads a list from an open file. After the messages on the first refused lines it says what the lines are.
    fn read<R: Read + Drop>(&mut self, name: &str, input: R) -> Result<Option<Listed>, AllocError> {
        let mut input = Input::new(Watched::new(input));
        let mut messages = Watched::new(self.rt.stderr());
        match read_list(self.rt.alloc(), name, &mut input, &mut messages) {
            Ok((listed, counts)) => {
                if counts.refused > 0 && !self.has_refused {
                    self.has_refused = true;
                    let _ = eprintln!(self.rt;
                        "jpgrep: {name}: the lines of a list are JSON texts, as \"u123\" with its quotes"
                    );
                }
                Ok(Some(listed))
            }
            Err(fault) => self.tell_fault(name, fault),
        }
    }

    /// Reads the list that an argument names.
    fn read_word(&mut self, word: &str) -> Result<Option<Listed>, AllocError> {
        if word == "-" {
            return self.read(STANDARD_INPUT, StandardInput::find(self.rt, true));
        }
        let told = shown(self.rt.alloc(), word, usize::MAX)?;
        match fs::open(self.rt, word) {
            Ok(file) => {
                let metadata = file.metadata();
                if matches!(&metadata, Ok(found) if found.is_dir()) {
                    return Ok(self.tell(&told, IS_DIRECTORY));
                }
                self.read(&told, file)
            }
            Err(error) => Ok(self.tell(&told, open_message(error.kind()))),
        }
    }
}

/// Whether standard input is asked for twice: as two lists, or as one and to be searched.
fn reads_twice(options: &Options<'_>, lists: &[AskedList<'_>]) -> bool {
    let files = options.files();
    let searched = files.is_empty() || files.contains(&"-");
    let mut is_taken = searched;
    for list in lists {
        if list.file == "-" {
            if is_taken {
                return true;
            }
            is_taken = true;
        }
    }
    false
}

/// Reads the lists, and adds them to the question. It stops at the first that is not read to its end.
pub(crate) fn read_lists<'a>(
    rt: &HostRuntime,
    options: &Options<'a>,
    lists: Vec<AskedList<'a>>,
    question: &mut Question,
) -> Result<Lists, Refusal<'a>> {
    if reads_twice(options, &lists) {
        return Err(Refusal::Twice);
    }
    let mut reader = ListReader {
        rt,
        has_refused: false,
    };
    for list in lists {
        match reader.read_word(list.file)? {
            Some(listed) => question.add_list(
                rt.alloc(),
                list.asking.origin,
                &list.asking.query,
                listed,
                list.wanted,
            )?,
            None => return Ok(Lists::Unread),
        }
    }
    Ok(if reader.has_refused {
        Lists::ReadInPart
    } else {
        Lists::Read
    })
}
