ghost use Rattle.std.specs.Prelude.{◌≡◌, ◌≤◌, IfErr, IfOk, IfSome, None, Some};
ghost use Rattle.call_ending.specs.Refusing.{IsRefusalOf, status_of};
ghost use Rattle.call_ending.specs.declared.status.Status.TheVariants as status;
ghost use Rattle.call_beginning.specs.Words.{words_refused};
ghost use Rattle.wait_call.specs.Words.{workers_asked};

use call_ending::{Cause, Line, Refusal};
use command_words::number_within;

/// The most workers that a run may have.
const MOST_WORKERS: u32 = 16;

/// How many workers the words ask for, or the refusal of words that ask for none.
pub(crate) fn workers_of(words: &[String]) -> Result<u32, Refusal>
    ensures accepted { IfOk result (λ workers. workers_asked words.now ≡ Some workers) }
    ensures in_range { IfOk result (λ workers. (1 ≤ workers) × (workers ≤ 16)) }
    ensures refused { IfErr result (λ refusal. (workers_asked words.now ≡ None) × (status_of refusal ≡ status.Words) × IsRefusalOf (Some words_refused) ⊥ refusal) }
{
    match workers_in(words) {
        Some(workers) => Ok(workers),
        None => Err(refused_words()),
    }
}

// The same, where they ask for some.
fn workers_in(words: &[String]) -> Option<u32>
    ensures asked { result ≡ workers_asked words.now }
    ensures in_range { IfSome result (λ workers. (1 ≤ workers) × (workers ≤ 16)) }
{
    match words {
        [word] => number_within(word, 1, MOST_WORKERS),
        _ => None,
    }
}

// The refusal of words that ask for none.
fn refused_words() -> Refusal
    ensures status { status_of result ≡ status.Words }
    ensures refused { IsRefusalOf (Some words_refused) ⊥ result }
{
    Refusal::Told(Cause::Words, Line::Fixed(b"ctm: words refused\n"))
}
