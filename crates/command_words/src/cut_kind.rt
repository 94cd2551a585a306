ghost use Rattle.std.specs.Prelude.{◌≡◌};
ghost use Rattle.command_words.specs.Values.{cut_named};

/// Into which regions a network is cut.
#[derive(Clone, Copy, Debug, PartialEq, Eq)]
pub enum CutKind {
    /// Even ones, in the order of the file.
    Even,
    /// Ones that are grown along the roads.
    Grown,
}

impl CutKind {
    /// What a word stands for.
    #[tactic(auto, unfolding(crate::specs::Values::cut_named))]
    pub fn named(word: &str) -> Option<CutKind>
        ensures { result ≡ cut_named word.now }
    {
        match word {
            "even" => Some(CutKind::Even),
            "grown" => Some(CutKind::Grown),
            _ => None,
        }
    }
}
