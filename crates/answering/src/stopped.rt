//! Why `answer` stopped.
ghost use Rattle.std.specs.Prelude.{◌≡◌};

use bridge_model::Cause;
use uno_base::NoMemory;
use uno_io::Failed;

/// Why nothing more is done.
#[derive(Clone, Copy, Debug, PartialEq, Eq)]
pub enum Stopped {
    /// The bridge ended, and all is written: for this cause, and not by the end of the input.
    Bridge(Cause),
    /// The input ended: inside a block or while a call was not answered, or else.
    Input { cut: bool },
    /// The input failed, and what came before is answered as if it had ended there.
    ReadFault,
    WriteFault,
    NoMemory,
}

/// Why nothing more can be done, though there may be more to do.
#[derive(Clone, Copy)]
pub(crate) enum Halted {
    WriteFault,
    NoMemory,
}

impl From<Failed> for Halted {
    ghost use Rattle.answering.specs.declared.stopped.Halted.TheVariants.{WriteFault};

    ghost from_gives = { λ _ e. e ≡ WriteFault };

    fn from(_: Failed) -> Halted {
        Halted::WriteFault
    }
}

impl From<NoMemory> for Halted {
    ghost use Rattle.answering.specs.declared.stopped.Halted.TheVariants as halted;

    ghost from_gives = { λ _ e. e ≡ halted.NoMemory };

    fn from(_: NoMemory) -> Halted {
        Halted::NoMemory
    }
}
