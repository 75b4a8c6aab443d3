//! Why a text says no plan.
ghost use Rattle.std.specs.Prelude.{◌≡◌};
ghost use Rattle.behaviour_text.specs.declared.error.PlanError.TheVariants.{NoMemory};

use plan_types::LineReason;

/// Why a text is not read.
#[derive(Clone, Copy, Debug, PartialEq, Eq)]
pub enum PlanError {
    NoMemory,
    /// The first line that is wrong, by its number from 1, and why; line 0 where the text is too large.
    BadLine(u32, LineReason),
}

impl From<uno_base::NoMemory> for PlanError {
    ghost from_gives = { λ _ e. e ≡ NoMemory };

    fn from(_: uno_base::NoMemory) -> PlanError {
        PlanError::NoMemory
    }
}
