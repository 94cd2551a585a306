ghost use Rattle.std.specs.Prelude.{◌≡◌};
ghost use Rattle.call_ending.specs.Refusing.{line_bytes, line_of, status_of};

use crate::cause::Cause;
use crate::status::Status;
use no_memory::NoMemory;

/// A line that standard error gets, with its line end.
#[derive(Debug, Drop)]
pub enum Line {
    /// A line that is the same in every call.
    Fixed(&'static [u8]),
    /// A line that was made for this call.
    Made(Vec<u8>),
}

impl Line {
    /// The bytes of the line.
    pub fn bytes(&self) -> &[u8]
        ensures { result.now ≡ line_bytes self.now }
    {
        match self {
            Line::Fixed(line) => line,
            Line::Made(line) => line,
        }
    }
}

/// Why a call has no text, or why it wasn't written.
#[derive(Debug, Drop)]
pub enum Refusal {
    /// The answer is that there is none: by this cause, with this line.
    Told(Cause, Line),
    /// A read of the input failed.
    ReadFault,
    /// A write of the text failed.
    WriteFault,
    /// Memory was refused.
    NoMemory,
}

impl Refusal {
    /// The status with which the call ends.
    pub fn status(&self) -> Status
        ensures { result ≡ status_of self.now }
    {
        match self {
            Refusal::Told(cause, _) => cause.status(),
            Refusal::ReadFault => Status::ReadFault,
            Refusal::WriteFault => Status::WriteFault,
            Refusal::NoMemory => Status::NoMemory,
        }
    }

    /// The line that standard error gets.
    pub fn line(&self) -> &[u8]
        ensures { result.now ≡ line_of self.now }
    {
        match self {
            Refusal::Told(_, line) => line.bytes(),
            Refusal::ReadFault => b"ctm: read fault\n",
            Refusal::WriteFault => b"ctm: write fault\n",
            Refusal::NoMemory => b"ctm: no memory\n",
        }
    }
}

impl From<NoMemory> for Refusal {
    ghost use Rattle.std.specs.Prelude.{◌≡◌};
    ghost use Rattle.call_ending.specs.declared.refusal.Refusal.TheVariants as refusal;

    ghost from_gives = { λ _ r. r ≡ refusal.NoMemory };

    fn from(_: NoMemory) -> Self {
        Refusal::NoMemory
    }
}
