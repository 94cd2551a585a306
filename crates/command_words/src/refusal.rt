ghost use Rattle.std.specs.Prelude.{◌≡◌};
ghost use Rattle.clap.specs.Words.{kind_of};
ghost use Rattle.command_words.specs.Refusing.{refusal_of};
ghost use Rattle.command_words.specs.declared.refusal.WordsRefusal.TheVariants.{NoMemory};

use clap::Error;
use clap::error::ErrorKind;
use std::alloc::AllocError;

/// Why words give no request.
#[derive(Clone, Copy, Debug, PartialEq, Eq)]
pub enum WordsRefusal {
    /// The program doesn't take the words. A call for help or for the version is refused like any other.
    Refused,
    /// Memory was refused; that says nothing of the words.
    NoMemory,
}

impl From<AllocError> for WordsRefusal {
    ghost from_gives = { λ _ refusal. refusal ≡ NoMemory };

    fn from(_error: AllocError) -> WordsRefusal {
        WordsRefusal::NoMemory
    }
}

/// The refusal for an error of `clap`: of its kind nothing counts but whether memory was refused.
pub(crate) fn refusal_by(error: &Error) -> WordsRefusal
    ensures { result ≡ refusal_of (kind_of error.now) }
{
    match error.kind() {
        ErrorKind::OutOfMemory => WordsRefusal::NoMemory,
        _ => WordsRefusal::Refused,
    }
}
