//! Why files are refused.
ghost use Rattle.std.specs.Prelude.{◌≡◌};
ghost use Rattle.idl_compile.specs.declared.error.CompileError.TheVariants as error;

use idl_check::CheckError;
use idl_lex::LexError;
use idl_names::NameError;
use idl_parse::ParseError;
use idl_trees::Place;
use std::alloc::AllocFailed;
use thiserror::Error;
use uno_base::NoMemory;

/// What is wrong at a place.
#[derive(Clone, Copy, Debug, PartialEq, Eq)]
pub enum Reason {
    BadUtf8,
    BadToken,
    OpenComment,
    TooLong,
    Unexpected,
    Nested,
    Unknown,
    Twice,
    FloatRefused,
    /// The number of the rule.
    Rule(u8),
}

/// The refusal that counts: of the first file that has no tokens or no tree, or else of the names of all, or else of the rules.
#[derive(Clone, Copy, Debug, PartialEq, Eq, Error)]
pub enum CompileError {
    #[error("no memory")]
    NoMemory,
    #[error("a file is refused")]
    Refused(Place, Reason),
}

impl From<NoMemory> for CompileError {
    ghost from_gives = { λ _ e. e ≡ error.NoMemory };

    fn from(_: NoMemory) -> CompileError {
        CompileError::NoMemory
    }
}

impl<T: Drop> From<AllocFailed<T>> for CompileError {
    ghost from_gives = { λ _ e. e ≡ error.NoMemory };

    fn from(_: AllocFailed<T>) -> CompileError {
        CompileError::NoMemory
    }
}

impl From<LexError> for CompileError {
    ghost use Rattle.idl_compile.specs.Errors.{of_lex};

    ghost from_gives = { λ e r. r ≡ of_lex e };

    fn from(error: LexError) -> CompileError {
        match error {
            LexError::NoMemory => CompileError::NoMemory,
            LexError::BadUtf8(place) => CompileError::Refused(place, Reason::BadUtf8),
            LexError::BadToken(place) => CompileError::Refused(place, Reason::BadToken),
            LexError::OpenComment(place) => CompileError::Refused(place, Reason::OpenComment),
            LexError::TooLong(place) => CompileError::Refused(place, Reason::TooLong),
        }
    }
}

impl From<ParseError> for CompileError {
    ghost use Rattle.idl_compile.specs.Errors.{of_parse};

    ghost from_gives = { λ e r. r ≡ of_parse e };

    fn from(error: ParseError) -> CompileError {
        match error {
            ParseError::NoMemory => CompileError::NoMemory,
            ParseError::Unexpected(place) => CompileError::Refused(place, Reason::Unexpected),
            ParseError::Nested(place) => CompileError::Refused(place, Reason::Nested),
        }
    }
}

impl From<NameError> for CompileError {
    ghost use Rattle.idl_compile.specs.Errors.{of_name};

    ghost from_gives = { λ e r. r ≡ of_name e };

    fn from(error: NameError) -> CompileError {
        match error {
            NameError::NoMemory => CompileError::NoMemory,
            NameError::Unknown(place) => CompileError::Refused(place, Reason::Unknown),
            NameError::Twice(place, _) => CompileError::Refused(place, Reason::Twice),
            NameError::FloatRefused(place) => CompileError::Refused(place, Reason::FloatRefused),
        }
    }
}

impl From<CheckError> for CompileError {
    ghost use Rattle.idl_compile.specs.Errors.{of_check};

    ghost from_gives = { λ e r. r ≡ of_check e };

    fn from(error: CheckError) -> CompileError {
        match error {
            CheckError::NoMemory => CompileError::NoMemory,
            CheckError::Rule(rule, place) => CompileError::Refused(place, Reason::Rule(rule)),
        }
    }
}
