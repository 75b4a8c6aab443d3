//! The options by their names, and their ranges.
ghost use Rattle.std.specs.Prelude.{◌≡◌};
ghost use Rattle.command_words.specs.Names.{option_named, is_option, least_of, most_of};

/// An option.
#[derive(Clone, Copy)]
pub(crate) enum OptionName {
    Seed,
    Cut,
    Threads,
    Sessions,
}

/// The option that a word names, without its value.
#[tactic(auto, unfolding(crate::specs::Names::option_named))]
pub(crate) fn option_named(word: &str) -> Option<OptionName>
    ensures { result ≡ option_named word.now }
{
    match word {
        "--seed" => Some(OptionName::Seed),
        "--cut" => Some(OptionName::Cut),
        "--threads" => Some(OptionName::Threads),
        "--sessions" => Some(OptionName::Sessions),
        _ => None,
    }
}

impl OptionName {
    pub(crate) fn is(self, other: OptionName) -> bool
        ensures { result ≡ is_option self other }
    {
        match (self, other) {
            (OptionName::Seed, OptionName::Seed) => true,
            (OptionName::Cut, OptionName::Cut) => true,
            (OptionName::Threads, OptionName::Threads) => true,
            (OptionName::Sessions, OptionName::Sessions) => true,
            _ => false,
        }
    }

    /// The least number that it may have.
    pub(crate) fn least(self) -> u64
        ensures { result ≡ least_of self }
    {
        match self {
            OptionName::Seed => 0,
            _ => 1,
        }
    }

    /// The greatest.
    pub(crate) fn most(self) -> u64
        ensures { result ≡ most_of self }
    {
        match self {
            OptionName::Seed => u64::MAX,
            OptionName::Cut => 65_536,
            OptionName::Threads => 16,
            OptionName::Sessions => 1_000,
        }
    }
}
