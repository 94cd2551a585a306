ghost use Rattle.std.specs.Prelude.{◌≡◌};
ghost use Rattle.std.specs.Process.{exit_status};
ghost use Rattle.call_ending.specs.Status.{status_number};

use std::process::ExitCode;

/// How a call ends (docs/FORMAT.md, "Exit status and standard error").
#[derive(Clone, Copy, Debug, PartialEq, Eq)]
pub enum Status {
    /// The whole text is written.
    Done = 0,
    /// The words ask for nothing that the program does.
    Words = 2,
    /// The input is no network.
    Network = 3,
    /// The input has too many bytes, or the text would tell too many values.
    TooLarge = 4,
    /// A read of the input failed.
    ReadFault = 5,
    /// A write of the text failed.
    WriteFault = 6,
    /// Memory was refused.
    NoMemory = 7,
    /// The input is no saved run that can be gone on from.
    Saved = 8,
    /// The input has no plans to choose among, or too many.
    Plans = 9,
}

impl Status {
    /// The number with which the program exits.
    pub fn number(self) -> u8
        ensures { result ≡ status_number self }
    {
        self as u8
    }

    /// What `main` gives back.
    pub fn exit_code(self) -> ExitCode
        ensures { exit_status result ≡ status_number self }
    {
        ExitCode::from(self.number())
    }
}
