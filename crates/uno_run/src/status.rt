//! How a run ended.
ghost use Rattle.std.specs.Prelude.{◌≡◌};
ghost use Rattle.uno_run.specs.Lines.{code_of};

use crate::RegistryReason;
use idl_compile::Reason as UnoidlReason;
use plan_model::LineReason;
use urp_model::Reason;

/// How a run ended; one line on `errors` says so, but after `Done`. A file is told by its place among the files that the words name, from 0.
#[derive(Clone, Copy, Debug, PartialEq, Eq)]
pub enum Status {
    Done,
    /// The words are in none of the forms.
    Words,
    /// A file is not UNOIDL that is served, or the files together are not, at this byte.
    BadUnoidl {
        file: u32,
        byte: u32,
        reason: UnoidlReason,
    },
    /// A file is not the text of a registry, first at this line.
    BadRegistry {
        file: u32,
        line: u32,
        reason: RegistryReason,
    },
    /// A file is not the text of a plan, first at this line.
    BadPlan {
        file: u32,
        line: u32,
        reason: LineReason,
    },
    /// The input or a file failed.
    ReadFault,
    /// The output failed.
    WriteFault,
    /// The bytes at this place of the input break the protocol.
    Broken(Reason, u64),
    /// The input ended inside a block, or while a call waited for its answer.
    Cut,
    /// A limit of the endpoint was reached.
    Full,
    NoFile(u32),
    NoMemory,
}

impl Status {
    /// The number with which the process ends.
    pub fn code(&self) -> u8
        ensures { result ≡ code_of self.now }
    {
        match self {
            Status::Done => 0,
            Status::Words => 1,
            Status::BadUnoidl { .. } => 2,
            Status::BadRegistry { .. } => 3,
            Status::BadPlan { .. } => 3,
            Status::ReadFault => 4,
            Status::WriteFault => 5,
            Status::Broken(..) => 6,
            Status::Cut => 7,
            Status::Full => 8,
            Status::NoFile(_) => 11,
            Status::NoMemory => 70,
        }
    }
}
