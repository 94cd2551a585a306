ghost use Rattle.std.specs.Prelude.{◌≡◌, IfErr, IfOk, Some};
ghost use Rattle.command_words.specs.Words.{IsInRange};
ghost use Rattle.call_beginning.specs.Words.{IsOfWords, requested};

use call_ending::{Cause, Line, Refusal};
use command_words::{Request, WordsRefusal, read_words};
use std::alloc::Global;

/// What the words ask for, or why they ask for nothing that the program does.
pub fn request_of(alloc: Global, words: &[String]) -> Result<Request, Refusal>
    ensures accepted { IfOk result (λ request. requested words.now ≡ Some request) }
    ensures in_range { IfOk result IsInRange }
    ensures refusal { IfErr result (IsOfWords (requested words.now)) }
{
    match read_words(alloc, words) {
        Ok(request) => Ok(request),
        Err(WordsRefusal::Refused) => {
            Err(Refusal::Told(Cause::Words, Line::Fixed(b"ctm: words refused\n")))
        }
        Err(WordsRefusal::NoMemory) => Err(Refusal::NoMemory),
    }
}
