ghost use Rattle.std.specs.Prelude.{[], ◌≡◌, drop, IfErr, IfOk};
ghost use Rattle.std.specs.Vec.Iter.{into_iter_items};

use no_memory::NoMemory;
use std::alloc::Global;
use std::env::{Args, Env};
use std::io::ErrorKind;
use std::{env, io};

/// The words after the program's name, as the environment gives them. Where one of them isn't text there are none.
pub fn given_words<R: Env + AllocGlobal>(rt: &R) -> Result<Vec<String>, NoMemory> {
    words_behind_name(rt.alloc(), env::args(rt))
}

// All words behind the first one that the environment gives, or none where it gives a word that isn't text.
fn words_behind_name(alloc: Global, given: io::Result<Args>) -> Result<Vec<String>, NoMemory>
    ensures words { IfOk given (λ args. IfOk result (λ words. words.items ≡ drop 1 (into_iter_items args))) }
    ensures none { IfErr given (λ error. IfOk result (λ words. words.items ≡ [])) }
{
    match given {
        Ok(mut args) => {
            let _name = args.next();
            Ok(args.collect(alloc)?)
        }
        Err(error) if error.kind() == ErrorKind::OutOfMemory => Err(NoMemory),
        Err(_) => Ok(Vec::new(alloc)),
    }
}
