ghost use Rattle.std.specs.Prelude.{◌≡◌, ◌≤◌, IfOk, IfSome, None, Some, map, option_map, string_bytes};
ghost use Rattle.clap.specs.Words.{first_of, found_of, rows_of};
ghost use Rattle.command_words.specs.Settings.{word_of};
ghost use Rattle.command_words.specs.Values.{AreRegions, cut_named, number_within, regions_named};
ghost use Rattle.command_words.specs.Words.{IsInRange, request_in, request_of, value_of};
ghost use Rattle.command_words.specs.declared.cut_kind.CutKind.TheVariants.{Even};
ghost use Rattle.command_words.specs.declared.region_choice.RegionChoice.TheVariants.{Count};

use crate::cut_kind::CutKind;
use crate::known_words::{MODE, known_words};
use crate::mode::Mode;
use crate::number::number_within;
use crate::refusal::{WordsRefusal, refusal_by};
use crate::region_choice::RegionChoice;
use crate::request::Request;
use crate::setting::Setting;
use clap::ArgMatches;
use std::alloc::Global;

/// The request of the words that stand after the program's name.
pub fn read_words(alloc: Global, words: &[String]) -> Result<Request, WordsRefusal>
    ensures accepted { IfOk result (λ request. request_of (map string_bytes words.now) ≡ Some request) }
    ensures refused { result ≡ Err WordsRefusal.Refused → request_of (map string_bytes words.now) ≡ None }
    ensures in_range { IfOk result IsInRange }
{
    let known = known_words(alloc)?;
    match known.try_get_matches_from(words) {
        Ok(matches) => requested(&matches).ok_or(WordsRefusal::Refused),
        Err(error) => Err(refusal_by(&error)),
    }
}

// The request of words that `clap` takes: of each option its values, and the one that it has where the words don't give it.
#[tactic(auto, unfolding(crate::specs::Words::request_in))]
fn requested(matches: &ArgMatches) -> Option<Request>
    ensures value { result ≡ request_in (rows_of (found_of matches.now)) }
    ensures in_range { IfSome result IsInRange }
{
    let mode = Mode::named(text_at(matches, MODE)?)?;
    let given = Given { matches, mode };
    Some(Request {
        mode,
        regions: given.regions()?,
        cut: given.cut()?,
        parts: given.number(Setting::Parts, 1, 64, 4)?,
        workers: given.number(Setting::Workers, 1, 16, 1)?,
        every: given.number(Setting::Every, 0, 100_000, 0)?,
        shots: given.number(Setting::Shots, 1, 64, 4)?,
        until: given.number(Setting::Until, 0, 100_000, 0)?,
        size: given.number(Setting::Size, 1, 10_000, 100)?,
        seed: given.number(Setting::Seed, 0, 999_999_999, 1)?,
    })
}

// What `clap` found in a mode.
#[derive(Clone, Copy)]
struct Given<'a, 'b> {
    matches: &'b ArgMatches<'a>,
    mode: Mode,
}

impl<'a, 'b> Given<'a, 'b> {
    // Into how many regions the network is cut.
    fn regions(&self) -> Option<RegionChoice>
        ensures value { result ≡ value_of self.now.mode Setting.Regions regions_named (Count 1) (rows_of (found_of self.now.matches.now)) }
        ensures in_range { IfSome result AreRegions }
    {
        match self.text(Setting::Regions) {
            None => Some(RegionChoice::Count(1)),
            Some(text) if self.mode.takes(Setting::Regions) => RegionChoice::named(text),
            Some(_) => None,
        }
    }

    // Into which.
    fn cut(&self) -> Option<CutKind>
        ensures { result ≡ value_of self.now.mode Setting.Cutting cut_named Even (rows_of (found_of self.now.matches.now)) }
    {
        match self.text(Setting::Cutting) {
            None => Some(CutKind::Even),
            Some(text) if self.mode.takes(Setting::Cutting) => CutKind::named(text),
            Some(_) => None,
        }
    }

    // The number of an option, from the least to the most.
    fn number(&self, setting: Setting, least: u32, most: u32, default: u32) -> Option<u32>
        requires default { (least ≤ default) × (default ≤ most) }
        ensures value { result ≡ value_of self.now.mode setting (number_within least most) default (rows_of (found_of self.now.matches.now)) }
        ensures in_range { IfSome result (λ number. (least ≤ number) × (number ≤ most)) }
    {
        match self.text(setting) {
            None => Some(default),
            Some(text) if self.mode.takes(setting) => number_within(text, least, most),
            Some(_) => None,
        }
    }

    // The text that the words give for an option.
    fn text(&self, setting: Setting) -> Option<&'a str>
        ensures { option_map (λ text. text.now) result ≡ first_of (word_of setting) (rows_of (found_of self.now.matches.now)) }
    {
        text_at(self.matches, setting.word())
    }
}

// The text that the words give under a name that the command knows.
fn text_at<'a>(matches: &ArgMatches<'a>, name: &str) -> Option<&'a str>
    ensures { option_map (λ text. text.now) result ≡ first_of name.now (rows_of (found_of matches.now)) }
{
    matches.get_str(name)
}
