//! The options that take two values, and the one that may take none, as those that take one are read.

ghost use Rattle.std.specs.Prelude.{◌≡◌, ◌∷◌, List, ℕ, IfOk, map};
ghost use Rattle.jp_options.specs.Pairs.{before_word, is_list_word, paired, paired_at, read_at, valued};

use std::alloc::{AllocError, Global};

/// What the next of the arguments is.
#[derive(Clone, Copy)]
pub(crate) enum Place<'a> {
    /// An option, or an argument that belongs to none or to the option before it.
    Any,
    /// The query of this option.
    Query(&'a str),
    /// The file of this option.
    File(&'a str),
    /// One after `--`.
    Behind,
}

/// Whether an argument is an option that takes a query and a file.
fn is_list_word(word: &str) -> bool
    ensures { result ≡ is_list_word word.now }
{
    word == "--in" || word == "--not-in"
}

impl<'a> Place<'a> {
    /// What follows an argument that is neither a query nor a file of a list.
    fn behind(word: &'a str) -> Place<'a>
        ensures { (rest : List (List ℕ)) → valued word.entry.now ∷ paired_at result rest ≡ paired (word.entry.now ∷ rest) }
    {
        if word == "--" {
            Place::Behind
        } else if is_list_word(word) {
            Place::Query(word)
        } else if word.as_bytes().starts_with(b"--in=") {
            Place::File("--in")
        } else if word.as_bytes().starts_with(b"--not-in=") {
            Place::File("--not-in")
        } else {
            Place::Any
        }
    }

    /// An argument as it is read.
    fn read(self, word: &'a str) -> &'a str
        ensures { result.now ≡ read_at self.entry word.entry.now }
    {
        match self {
            Place::Any if word == "--color" => "--color=auto",
            _ => word,
        }
    }

    /// What follows an argument.
    fn next(self, word: &'a str) -> Place<'a>
        ensures { (rest : List (List ℕ)) → before_word self.entry (read_at self.entry word.entry.now ∷ paired_at result rest) ≡ paired_at self.entry (word.entry.now ∷ rest) }
    {
        match self {
            Place::Any => Place::behind(word),
            Place::Query(option) => Place::File(option),
            Place::File(_) => Place::Any,
            Place::Behind => Place::Behind,
        }
    }
}

/// The arguments with `--in` and `--not-in` once more before the file after their query, which may stand after an equals sign:
/// so each use of them is two uses of an option that takes one value, which `read_words` reads. And with its value after a
/// `--color` that has none. Arguments after `--` stay.
///
/// # Errors
///
/// Memory ran out.
pub fn pair_words<'a>(alloc: Global, words: &[&'a str]) -> Result<Vec<&'a str>, AllocError>
    ensures { IfOk result (λ all. map (λ w. w.now) all.items ≡ paired (map (λ w. w.now) words.now)) }
{
    let mut paired = Vec::new(alloc);
    let mut place = Place::Any;
    for word in words {
        if let Place::File(option) = place {
            paired.push(option)?;
        }
        paired.push(place.read(word))?;
        place = place.next(word);
    }
    if let Place::File(option) = place {
        paired.push(option)?;
    }
    Ok(paired)
}
