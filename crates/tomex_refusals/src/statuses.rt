//! What exit statuses other than 0 say.

ghost use Rattle.std.specs.Prelude.{◌≡◌};
ghost use Rattle.tomex_refusals.specs.Statuses.{advice_of, words_of};

/// An exit status other than 0.
#[derive(Clone, Copy)]
pub enum ExitStatus {
    /// 1: the input was refused.
    Input,
    /// 2: the command line was refused.
    Line,
    /// 3: the system refused something.
    System,
}

const INPUT: &str = "The study, one of its programs or what was asked of them was refused. Standard
error has a line that says why: `tomex explain` and its words say more.
";

const LINE: &str = "The command line was refused, before any file was read: a word is missing or
isn't known, or a number is outside its range. Standard error says which, and
`tomex COMMAND --help` what the command takes.
";

const SYSTEM: &str = "The system refused a file, memory, a thread or the standard output. Standard
error has a line that says which: `cannot read NAME`, `out of memory`, `thread
refused` or `cannot write`.
";

impl ExitStatus {
    /// The words by which it is known.
    pub fn words(self) -> &'static str
        ensures { result.now ≡ words_of self }
    {
        match self {
            ExitStatus::Input => "exit status 1",
            ExitStatus::Line => "exit status 2",
            ExitStatus::System => "exit status 3",
        }
    }

    /// The advice on it: its meaning, and what to do.
    pub fn advice(self) -> &'static str
        ensures { result.now ≡ advice_of self }
    {
        match self {
            ExitStatus::Input => INPUT,
            ExitStatus::Line => LINE,
            ExitStatus::System => SYSTEM,
        }
    }
}
