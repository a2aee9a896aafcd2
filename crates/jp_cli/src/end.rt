//! How the program ends.

ghost use Rattle.std.specs.Prelude.{◌≡◌};
ghost use Rattle.jp_cli.specs.Ends.{end_status, end_message};

use jp_model::RunFault;

/// How the program ends.
#[derive(Clone, Copy, Debug, PartialEq, Eq)]
pub enum End {
    /// The script was run to its end.
    Done,
    /// The program's arguments were refused.
    Words,
    /// The collection cannot be opened.
    NoCollection,
    /// The script cannot be opened.
    NoScript,
    /// The run stopped.
    Run(RunFault),
    /// A growth was refused while the arguments were read.
    Memory,
}

impl End {
    /// The exit status: 0 where the work is done, 2 for refused arguments, 3 and 4 where a file cannot be opened, and from
    /// 11 to 16 the faults of a run.
    pub fn status(self) -> u8
        ensures { result ≡ end_status self }
    {
        match self {
            End::Done => 0,
            End::Words => 2,
            End::NoCollection => 3,
            End::NoScript => 4,
            End::Run(RunFault::ReadCollection) => 11,
            End::Run(RunFault::Size) => 12,
            End::Run(RunFault::Framing) => 13,
            End::Run(RunFault::ReadScript) => 14,
            End::Run(RunFault::Write) => 15,
            End::Run(RunFault::Memory) | End::Memory => 16,
        }
    }

    /// The line that goes to standard error, without its line feed. It is empty where the work is done, and where the
    /// arguments were refused, since that was reported when they were read.
    pub fn message(self) -> &'static str
        ensures { result.now ≡ end_message self }
    {
        match self {
            End::Done | End::Words => "",
            End::NoCollection => "jpq: cannot open collection",
            End::NoScript => "jpq: cannot open script",
            End::Run(RunFault::ReadCollection) => "jpq: cannot read collection",
            End::Run(RunFault::Size) => "jpq: collection too large",
            End::Run(RunFault::Framing) => "jpq: bytes before first separator",
            End::Run(RunFault::ReadScript) => "jpq: cannot read script",
            End::Run(RunFault::Write) => "jpq: cannot write",
            End::Run(RunFault::Memory) | End::Memory => "jpq: out of memory",
        }
    }
}
