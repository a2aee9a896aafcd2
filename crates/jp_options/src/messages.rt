//! What is said of options that do not go together.

/// What is said if `--tally` is used with what prints lines one by one, or selects those without a value.
pub(crate) const NO_TALLY: &str =
    "the argument '--tally' cannot be used with '--only-matching', '--path', '--count', '--files-with-matches', '--files-without-match', '--quiet', '--line-number', '--with-filename', '--null', '--invert-match', '--seq' or '--refused'";

/// What is said if `--paths` is used with what prints something else, or selects lines without a value.
pub(crate) const NO_SURVEY: &str =
    "the argument '--paths' cannot be used with '--query', '--tally', '--names', '--raw', '--canonical', '--only-matching', '--path', '--count', '--files-with-matches', '--files-without-match', '--quiet', '--line-number', '--with-filename', '--null', '--invert-match', '--seq' or '--refused'";

/// What is said if `-A`, `-B` or `-C` is used with what has no lines around it.
pub(crate) const NO_CONTEXT: &str =
    "the arguments '--after-context', '--before-context' and '--context' cannot be used with '--only-matching', '--path', '--tsv', '--csv', '--each', '--tally' or '--paths'";

/// What is said if `--fold` is used without paths.
pub(crate) const NO_PATHS: &str = "the argument '--fold <NUMBER>' is used with '--paths' alone";

/// What is said if `-l` is used with `-L`.
pub(crate) const BOTH_NAMES: &str =
    "the argument '--files-with-matches' cannot be used with '--files-without-match'";

/// What is said if `-H` is used with `-h`.
pub(crate) const BOTH_FRONTS: &str =
    "the argument '--with-filename' cannot be used with '--no-filename'";

/// What is said if `--refused` is used with what asks of values.
pub(crate) const NO_QUESTION: &str =
    "the argument '--refused' cannot be used with '--query', '--where', '--each', '--in', '--not-in', '--invert-match', '--only-matching', '--raw', '--canonical', '--tsv' or '--csv'";

/// What is said if `-r` is used with `-j`.
pub(crate) const BOTH_SPELLINGS: &str = "the argument '--raw' cannot be used with '--canonical'";

/// What is said if `--tsv` is used with `--csv`.
pub(crate) const BOTH_TABLES: &str = "the argument '--tsv' cannot be used with '--csv'";

/// What is said if a table is to show values otherwise.
pub(crate) const NO_SPELLING: &str =
    "the arguments '--tsv' and '--csv' cannot be used with '--only-matching', '--path', '--raw' or '--canonical'";

/// What is said if `--header` or `--names` is used without columns.
pub(crate) const NO_TABLE: &str =
    "the arguments '--header' and '--names' are used with '--tsv', '--csv', '--tally' or '--paths' alone";

/// What is said if there are more names of columns than queries, or fewer.
pub(crate) const NO_NAMES: &str = "the argument '--names <NAMES>' has one name for each query";

/// What is said if `-v` is used with what shows values.
pub(crate) const NO_VALUES: &str =
    "the argument '--invert-match' cannot be used with '--only-matching', '--path', '--tsv' or '--csv'";

/// What is said if `-v` is used with what shows values of nodes that are asked one by one.
pub(crate) const NO_VALUES_OF_NODES: &str =
    "with '--each' the argument '--invert-match' cannot be used with '--query', '--path', '--tsv' or '--csv'";

/// What is said if `--json` is used with `--elements`.
pub(crate) const BOTH_PIECES: &str = "the argument '--json' cannot be used with '--elements'";

/// What is said if `--seq` is used with what cuts the files otherwise.
pub(crate) const NO_PIECES: &str =
    "the argument '--seq' cannot be used with '--json' or '--elements'";

/// What is said if no argument is a query.
pub(crate) const NO_QUERY: &str =
    "no QUERY was given, nor '--query <QUERY>', '--where <CONDITION>', '--each <QUERY>', '--in <QUERY> <FILE>', '--refused' or '--paths'";
