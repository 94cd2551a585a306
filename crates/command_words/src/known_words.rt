ghost use Rattle.std.specs.Prelude.{◌≡◌, IfOk, false};
ghost use Rattle.clap.specs.Words.{app_of, rule_of};
ghost use Rattle.command_words.specs.KnownWords.{command, option_rule};

use crate::setting::Setting;
use clap::{Arg, Command};
use std::alloc::{AllocError, Global};

/// The name under which `clap` keeps the mode.
pub(crate) const MODE: &str = "mode";

/// The command that `clap` reads the words as.
pub(crate) fn known_words<'a>(alloc: Global) -> Result<Command<'a>, AllocError>
    ensures { IfOk result (λ known. app_of known ≡ command) }
{
    Command::new(alloc, "ctm")
        .no_binary_name(true)
        .arg(option(alloc, Setting::Regions))?
        .arg(option(alloc, Setting::Cutting))?
        .arg(option(alloc, Setting::Parts))?
        .arg(option(alloc, Setting::Workers))?
        .arg(option(alloc, Setting::Every))?
        .arg(option(alloc, Setting::Shots))?
        .arg(option(alloc, Setting::Until))?
        .arg(option(alloc, Setting::Size))?
        .arg(option(alloc, Setting::Seed))?
        .arg(Arg::new(alloc, MODE).required(true))
}

// An option takes one value, any text.
fn option<'a>(alloc: Global, setting: Setting) -> Arg<'a>
    ensures rule { rule_of result ≡ option_rule setting }
    ensures own { result.global ≡ false }
{
    let word: &'a str = setting.word();
    Arg::new(alloc, word).long(word)
}
