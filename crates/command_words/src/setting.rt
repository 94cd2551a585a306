ghost use Rattle.std.specs.Prelude.{◌≡◌};
ghost use Rattle.command_words.specs.Settings.{word_of};

/// An option of the command line.
#[derive(Clone, Copy, Debug, PartialEq, Eq)]
pub enum Setting {
    /// Into how many regions the network is cut.
    Regions,
    /// How the network is cut: into even regions of the order of the file, or into grown ones.
    Cutting,
    /// Into how many parts a run is cut, each in a cutting of its own.
    Parts,
    /// How many workers take the regions through the steps.
    Workers,
    /// Every how many steps the state is recorded; 0 for never.
    Every,
    /// How many shots are taken on the way.
    Shots,
    /// Near which step a run is saved.
    Until,
    /// How many main cells a made network has.
    Size,
    /// Where the draws of a made network start.
    Seed,
}

impl Setting {
    /// The word that stands behind `--`.
    pub fn word(self) -> &'static str
        ensures { result.now ≡ word_of self }
    {
        match self {
            Setting::Regions => "regions",
            Setting::Cutting => "cut",
            Setting::Parts => "parts",
            Setting::Workers => "workers",
            Setting::Every => "every",
            Setting::Shots => "shots",
            Setting::Until => "until",
            Setting::Size => "size",
            Setting::Seed => "seed",
        }
    }
}
