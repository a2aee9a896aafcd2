//! Laws of scripts: what a script answers does not depend on indexes, edits are loads, and its output goes on.

ghost use Rattle.std.specs.Prelude.{◌≡◌, ◌<◌, ℕ, List, [], ◌∷◌, ◌++◌, Bool, false, All, Some, take, drop, length};
ghost use Rattle.jp_model.specs.declared.Framing.TheVariants.{Lines as in_lines};
ghost use Rattle.jp_model.specs.declared.Setup.{Setup};
ghost use Rattle.jp_model.specs.Lines.{lines, first_piece, separator_of, HasNoSeparator, open_line};
ghost use Rattle.jp_model.specs.Query.Status.{QueryStatus};
ghost use Rattle.jp_model.specs.Script.Commands.{Command, command_lines, drop_line, index_line};
ghost use Rattle.jp_model.specs.Script.Headline.{loaded};
ghost use Rattle.jp_model.specs.Script.Machine.{State, has_path, index_path, step, run_commands};
ghost use Rattle.jp_model.specs.Steps.{Step};
ghost use Rattle.jp_laws.specs.Scripts.{is_of_indexes, other_lines, other_flags, other_answers, with_line_feeds, begins_with_mark};

/// Indexes are not seen: over states with equal lines every command but `index`, `drop`, `indexes` and `explain` answers
/// alike and leaves equal lines. So a script without those four gives the answers that the other commands give in the whole
/// script, one after another, and leaves the lines that it leaves.
pub fn indexes_are_not_seen()
    ensures alike { (query_of : List ℕ → QueryStatus) (setup : Setup) (s t : State) (c : Command) → is_of_indexes c ≡ false → s.lines ≡ t.lines
        → ((step query_of setup s c).written ≡ (step query_of setup t c).written) × ((step query_of setup s c).after.lines ≡ (step query_of setup t c).after.lines) }
    ensures answers { (query_of : List ℕ → QueryStatus) (asked : List ℕ → Command) (setup : Setup) (s : State) (commands : List (List ℕ)) (flags : List Bool)
        → (run_commands query_of asked setup s (other_lines asked commands) (other_flags asked commands flags)).written
        ≡ other_answers query_of asked setup s commands flags }
    ensures lines { (query_of : List ℕ → QueryStatus) (asked : List ℕ → Command) (setup : Setup) (s : State) (commands : List (List ℕ)) (flags : List Bool)
        → (run_commands query_of asked setup s (other_lines asked commands) (other_flags asked commands flags)).after.lines
        ≡ (run_commands query_of asked setup s commands flags).after.lines }
{}

/// No line holds a separator: not one of a collection as it is loaded, in either framing, and not one after any script.
pub fn no_line_holds_a_separator()
    ensures { (query_of : List ℕ → QueryStatus) (asked : List ℕ → Command) (setup : Setup) (collection : List ℕ) (commands : List (List ℕ)) (flags : List Bool)
        → All (HasNoSeparator (separator_of setup.framing)) (run_commands query_of asked setup (loaded setup collection) commands flags).after.lines }
{}

/// Edits are a load: the lines that a script leaves of a collection in `Lines`, each with a line feed after it, are a
/// collection that loads as those lines, where the first does not begin with a byte order mark.
pub fn edits_are_a_load()
    ensures texts { (texts : List (List ℕ)) → All (HasNoSeparator 0x0A) texts → begins_with_mark (first_piece texts) ≡ false → lines in_lines (with_line_feeds texts) ≡ texts }
    ensures scripts { (query_of : List ℕ → QueryStatus) (asked : List ℕ → Command) (setup : Setup) (collection : List ℕ) (commands : List (List ℕ)) (flags : List Bool)
        → setup.framing ≡ in_lines
        → begins_with_mark (first_piece (run_commands query_of asked setup (loaded setup collection) commands flags).after.lines) ≡ false
        → (loaded setup (with_line_feeds (run_commands query_of asked setup (loaded setup collection) commands flags).after.lines)).lines
        ≡ (run_commands query_of asked setup (loaded setup collection) commands flags).after.lines }
{}

/// The output of a script goes on: of two lists of commands it is that of the first, and then that of the second from the
/// state that the first left; and the command lines of `a ++ b`, where `a` ends with a line feed or is empty, are those of
/// `a` and then those of `b`.
pub fn output_goes_on()
    ensures written { (query_of : List ℕ → QueryStatus) (asked : List ℕ → Command) (setup : Setup) (s : State) (a b : List (List ℕ)) (flags : List Bool)
        → (run_commands query_of asked setup s (a ++ b) flags).written
        ≡ (run_commands query_of asked setup s a (take (length a) flags)).written
        ++ (run_commands query_of asked setup (run_commands query_of asked setup s a (take (length a) flags)).after b (drop (length a) flags)).written }
    ensures after { (query_of : List ℕ → QueryStatus) (asked : List ℕ → Command) (setup : Setup) (s : State) (a b : List (List ℕ)) (flags : List Bool)
        → (run_commands query_of asked setup s (a ++ b) flags).after
        ≡ (run_commands query_of asked setup (run_commands query_of asked setup s a (take (length a) flags)).after b (drop (length a) flags)).after }
    ensures commands { (a b : List ℕ) → open_line a ≡ [] → command_lines (a ++ b) ≡ command_lines a ++ command_lines b }
{}

/// An index that is made and deleted again leaves what was there, where its path had none and fewer than sixteen did.
///
/// That `drop` takes the first index of the list, whichever it names, is refused here.
pub fn a_dropped_index_leaves_no_trace()
    ensures { (query_of : List ℕ → QueryStatus) (setup : Setup) (s : State) (x : List ℕ) (p : List Step) → index_path (query_of x) ≡ Some p → has_path p s.paths ≡ false → length s.paths < 16
        → (step query_of setup (step query_of setup s (index_line x)).after (drop_line x)).after ≡ s }
{}
