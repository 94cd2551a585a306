ghost use Rattle.std.specs.Prelude.{◌≡◌};
ghost use Rattle.call_ending.specs.Refusing.{cause_status};

use crate::status::Status;

/// Why the answer itself is that there is no text.
#[derive(Clone, Copy, Debug, PartialEq, Eq)]
pub enum Cause {
    /// Words that ask for nothing that the program does.
    Words,
    /// An input that is no network.
    Network,
    /// An input with too many bytes, or a text that would tell too many values.
    TooLarge,
    /// A saved run that can't be gone on from.
    Saved,
    /// An input with no plans to choose among, or with too many.
    Plans,
}

impl Cause {
    /// The status with which the call ends.
    pub fn status(self) -> Status
        ensures { result ≡ cause_status self }
    {
        match self {
            Cause::Words => Status::Words,
            Cause::Network => Status::Network,
            Cause::TooLarge => Status::TooLarge,
            Cause::Saved => Status::Saved,
            Cause::Plans => Status::Plans,
        }
    }
}
