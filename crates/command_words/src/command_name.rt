//! The names of the commands.
ghost use Rattle.std.specs.Prelude.{◌≡◌};
ghost use Rattle.command_words.specs.Names.{command_named, allows};

use crate::option_name::OptionName;

/// A command by its name; `answer` has two forms.
#[derive(Clone, Copy)]
pub(crate) enum CommandName {
    Compile,
    Idl,
    Answer,
    Pair,
    Serve,
    Call,
    Drill,
}

/// The command of a name.
#[tactic(auto, unfolding(crate::specs::Names::command_named))]
pub(crate) fn command_named(word: &str) -> Option<CommandName>
    ensures { result ≡ command_named word.now }
{
    match word {
        "compile" => Some(CommandName::Compile),
        "idl" => Some(CommandName::Idl),
        "answer" => Some(CommandName::Answer),
        "pair" => Some(CommandName::Pair),
        "serve" => Some(CommandName::Serve),
        "call" => Some(CommandName::Call),
        "drill" => Some(CommandName::Drill),
        _ => None,
    }
}

/// Whether a command has an option.
pub(crate) fn allows(command: CommandName, option: OptionName) -> bool
    ensures { result ≡ allows command option }
{
    match (command, option) {
        (CommandName::Pair, OptionName::Seed) => true,
        (CommandName::Pair, OptionName::Cut) => true,
        (CommandName::Pair, OptionName::Threads) => true,
        (CommandName::Serve, OptionName::Threads) => true,
        (CommandName::Serve, OptionName::Sessions) => true,
        (CommandName::Call, OptionName::Threads) => true,
        _ => false,
    }
}
