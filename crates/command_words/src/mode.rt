ghost use Rattle.std.specs.Prelude.{◌≡◌};
ghost use Rattle.command_words.specs.Modes.{mode_named, takes_option};

use crate::setting::Setting;

/// What the program is to do.
#[derive(Clone, Copy, Debug, PartialEq, Eq)]
pub enum Mode {
    /// Takes the network through its steps and writes the report.
    Run,
    /// Takes the network through its steps, and writes shots of it on the way and then the report.
    Watch,
    /// Takes a network that a size and a seed make through its steps, and writes what is in it and its totals.
    Sample,
    /// Takes the network near a step and writes its regions there, each at a step of its own, as a text to go on from.
    Save,
    /// Goes on from such a text to the last step, and writes the report.
    Resume,
    /// Runs a network with each of several plans, and writes their delays and the plan with the least.
    Choose,
    /// Takes the network through its steps in parts, each in another cutting, and writes the report.
    Recut,
    /// Cuts the network, and writes how many connectors that cuts and the region of each cell.
    Cut,
    /// Reads the network and writes its counts.
    Check,
    /// Writes the file again, in format 3 where that is its own, and else in format 2.
    Convert,
}

impl Mode {
    /// The mode that a word names, in lower case.
    pub fn named(word: &str) -> Option<Mode>
        ensures { result ≡ mode_named word.now }
    {
        match word {
            "run" => Some(Mode::Run),
            "watch" => Some(Mode::Watch),
            "sample" => Some(Mode::Sample),
            "save" => Some(Mode::Save),
            "resume" => Some(Mode::Resume),
            "choose" => Some(Mode::Choose),
            "recut" => Some(Mode::Recut),
            "cut" => Some(Mode::Cut),
            "check" => Some(Mode::Check),
            "convert" => Some(Mode::Convert),
            _ => None,
        }
    }

    /// Whether the mode has the option. In a mode that hasn't it, the option is refused whatever its value.
    pub fn takes(self, setting: Setting) -> bool
        ensures { result ≡ takes_option self setting }
    {
        match (self, setting) {
            (Mode::Run, Setting::Regions | Setting::Workers | Setting::Every) => true,
            (Mode::Run, Setting::Cutting) => true,
            (Mode::Run, _) => false,
            (Mode::Watch, Setting::Regions | Setting::Workers | Setting::Every) => true,
            (Mode::Watch, Setting::Cutting | Setting::Shots) => true,
            (Mode::Watch, _) => false,
            (Mode::Sample, Setting::Regions | Setting::Workers) => true,
            (Mode::Sample, Setting::Size | Setting::Seed) => true,
            (Mode::Sample, _) => false,
            (Mode::Save, Setting::Until | Setting::Regions | Setting::Workers) => true,
            (Mode::Save, Setting::Cutting) => true,
            (Mode::Save, _) => false,
            (Mode::Resume, Setting::Workers) => true,
            (Mode::Resume, _) => false,
            (Mode::Choose, _) => false,
            (Mode::Recut, Setting::Parts | Setting::Regions | Setting::Workers) => true,
            (Mode::Recut, _) => false,
            (Mode::Cut, Setting::Regions) => true,
            (Mode::Cut, _) => false,
            (Mode::Check, _) => false,
            (Mode::Convert, _) => false,
        }
    }
}
