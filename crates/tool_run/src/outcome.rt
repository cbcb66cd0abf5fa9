// How a run of the program may end.
ghost use Rattle.std.specs.Prelude.{◌≡◌};

/// How a run of the program ended.
#[derive(Debug, Drop)]
pub enum Outcome {
    /// The text was written whole.
    Written,
    /// The words aren't a command.
    Usage,
    /// The bytes are no JSON text.
    BadJson,
    /// The bytes are a JSON text, and no document.
    BadDocument,
    /// The bytes are a document of a query whose text reads as none.
    BadQuery,
    /// The bytes are a document of a query in which a name is no table's.
    UnknownTable,
    /// The plan isn't valid: the line says why, and at which node.
    Refused(String),
    /// The plan ended with a fault: the line says with which, and at which node.
    Faulted(String),
    /// A read failed.
    ReadFault,
    /// A write failed.
    WriteFault,
    /// The document is too long.
    TooLong,
    /// An allocation was refused.
    OutOfMemory,
}

impl Outcome {
    ghost use Rattle.tool_run.specs.Outcomes.{line_of, status_of};

    /// The exit status.
    pub fn status(&self) -> u8
        ensures { result ≡ status_of self.now }
    {
        match self {
            Outcome::Written => 0,
            Outcome::Usage => 2,
            Outcome::BadJson | Outcome::BadDocument | Outcome::BadQuery | Outcome::UnknownTable =>
                3,
            Outcome::Refused(_) => 4,
            Outcome::Faulted(_) => 5,
            Outcome::ReadFault => 6,
            Outcome::WriteFault => 7,
            Outcome::TooLong => 8,
            Outcome::OutOfMemory => 9,
        }
    }

    /// The line for standard error, with its newline; the empty text where there is none.
    pub fn line(&self) -> &str
        ensures { result.now ≡ line_of self.now }
    {
        match self {
            Outcome::Written => "",
            Outcome::Usage => "Usage\n",
            Outcome::BadJson => "BadJson\n",
            Outcome::BadDocument => "BadDocument\n",
            Outcome::BadQuery => "BadQuery\n",
            Outcome::UnknownTable => "UnknownTable\n",
            Outcome::Refused(line) | Outcome::Faulted(line) => line.as_str(),
            Outcome::ReadFault => "ReadFault\n",
            Outcome::WriteFault => "WriteFault\n",
            Outcome::TooLong => "TooLong\n",
            Outcome::OutOfMemory => "OutOfMemory\n",
        }
    }
}
