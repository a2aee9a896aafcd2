//! What is said of options that grep or jq has and jpgrep has not.

/// An option of another program: its letter, where it has one, its long name, and what to do instead.
struct Foreign {
    letter: Option<char>,
    words: &'static [&'static str],
    instead: &'static str,
}

/// Patterns know no case.
const CASE: &str = "patterns cannot ignore case: spell both, as in search(@.a, \"[Ee]rror\")";

/// A number by itself, by which grep asks for lines of context.
const NUMBER: Foreign = Foreign {
    letter: None,
    words: &[],
    instead: "the number of lines around a line is given by -C, as in -C 3",
};

/// The options of other programs.
const FOREIGN: &[Foreign] = &[
    Foreign {
        letter: Some('i'),
        words: &["ignore-case"],
        instead: CASE,
    },
    Foreign {
        letter: Some('y'),
        words: &[],
        instead: CASE,
    },
    Foreign {
        letter: Some('E'),
        words: &["extended-regexp"],
        instead: "patterns are those of RFC 9485, asked by match and search",
    },
    Foreign {
        letter: Some('P'),
        words: &["perl-regexp"],
        instead: "patterns are those of RFC 9485, asked by match and search",
    },
    Foreign {
        letter: Some('F'),
        words: &["fixed-strings"],
        instead: "a text is compared by ==, as in -w '@.level == \"error\"'",
    },
    Foreign {
        letter: Some('x'),
        words: &["line-regexp", "word-regexp"],
        instead: "match asks of a whole text, search of a part of it",
    },
    Foreign {
        letter: Some('z'),
        words: &["null-data"],
        instead: "lines end with a line feed; --seq reads text sequences (RFC 7464)",
    },
    Foreign {
        letter: Some('R'),
        words: &["recursive", "dereference-recursive"],
        instead: "files are named one by one, as find does: find logs -name '*.jsonl' -exec jpgrep QUERY {} +",
    },
    Foreign {
        letter: Some('f'),
        words: &["file", "from-file"],
        instead: "there is no file of queries: each is given by -e, and a list of values by --in",
    },
    Foreign {
        letter: Some('a'),
        words: &["text"],
        instead: "no file is taken for binary: leave it out",
    },
    Foreign {
        letter: Some('b'),
        words: &["byte-offset"],
        instead: "there is none: -n gives the number of a line, -p the path in it",
    },
    Foreign {
        letter: None,
        words: &["include", "exclude", "exclude-dir"],
        instead: "files are named by the shell or by find",
    },
    Foreign {
        letter: Some('S'),
        words: &["sort-keys"],
        instead: "-j prints canonical form, in which members are sorted",
    },
    Foreign {
        letter: None,
        words: &["slurp"],
        instead: "there is none: each text is asked by itself; --json reads texts over several lines",
    },
    Foreign {
        letter: None,
        words: &["stream", "array"],
        instead: "--elements asks the elements of an array one by one",
    },
    Foreign {
        letter: None,
        words: &["jsonl", "ndjson"],
        instead: "each line is a JSON text: leave it out",
    },
    Foreign {
        letter: None,
        words: &["arg", "argjson"],
        instead: "there is none: a value stands in the query, as in -w '@.user == \"u1\"'",
    },
    Foreign {
        letter: None,
        words: &["group-separator", "no-group-separator"],
        instead: "there is none: -- stands between lines around a line that do not touch",
    },
    Foreign {
        letter: Some('u'),
        words: &["unique"],
        instead: "there is none: --tally counts equal values",
    },
    Foreign {
        letter: None,
        words: &["line-buffered", "unbuffered"],
        instead: "rows are written as soon as their lines are there: leave it out",
    },
    Foreign {
        letter: None,
        words: &["pretty", "indent"],
        instead: "each row is one line; jq . prints it over several",
    },
    Foreign {
        letter: None,
        words: &["compact-output"],
        instead: "each row is one line: leave it out",
    },
    Foreign {
        letter: None,
        words: &["sort", "sort-by"],
        instead: "rows come in the order of the lines; sort, after a |, orders them",
    },
    Foreign {
        letter: None,
        words: &["limit", "head", "max-results"],
        instead: "the first lines are asked by -m, as in -m 10",
    },
    Foreign {
        letter: None,
        words: &["raw-output"],
        instead: "-r prints strings as their text",
    },
    Foreign {
        letter: None,
        words: &["colour"],
        instead: "it is spelled --color",
    },
];

/// The letters of jpgrep's own options that take a value, which ends a group of letters.
const WITH_VALUE: &[char] = &['e', 'w', 'm', 'A', 'B', 'C'];

/// The option of another program that a group of letters has.
fn by_letter(letters: &str) -> Option<&'static Foreign> {
    for letter in letters.chars() {
        if WITH_VALUE.contains(&letter) {
            return None;
        }
        if letter.is_ascii_digit() {
            return Some(&NUMBER);
        }
        let found = FOREIGN.iter().find(|it| it.letter == Some(letter));
        if found.is_some() {
            return found;
        }
    }
    None
}

/// The option of another program that an argument names.
fn by_word(word: &str) -> Option<&'static Foreign> {
    let name = match word.split_once('=') {
        Some((name, _)) => name,
        None => word,
    };
    FOREIGN.iter().find(|it| it.words.contains(&name))
}

/// The first of the arguments that is an option of another program, and what to do instead.
pub(crate) fn find_foreign<'w>(words: &[&'w str]) -> Option<(&'w str, &'static str)> {
    for word in words {
        if *word == "--" {
            return None;
        }
        let found = match word.strip_prefix("--") {
            Some(name) => by_word(name),
            None => word
                .strip_prefix('-')
                .and_then(|letters| by_letter(letters)),
        };
        if let Some(foreign) = found {
            return Some((*word, foreign.instead));
        }
    }
    None
}
