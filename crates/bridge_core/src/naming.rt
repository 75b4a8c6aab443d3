//! The form of the names that a root asks the peer for.
ghost use Rattle.std.specs.Prelude.{◌≡◌};
ghost use Rattle.std.specs.List.{list_all};
ghost use Rattle.plan_model.specs.Forms.{is_export_byte, is_export_name};

/// The most bytes of the name of an export.
const MOST_EXPORTED: usize = 64;

/// Whether it is 1 to 64 letters, digits, `.`, `_` and `-`.
#[tactic(auto, unfolding(plan_model::specs::Forms::is_export_name))]
pub(crate) fn is_export_name(name: &str) -> bool
    ensures { result ≡ is_export_name name.now }
{
    !name.is_empty() && name.len() <= MOST_EXPORTED && are_exported(name.as_bytes())
}

fn are_exported(bytes: &[u8]) -> bool
    ensures { result ≡ list_all is_export_byte bytes.now }
{
    bytes.iter().all(|byte| is_exported(*byte))
}

fn is_exported(byte: u8) -> bool
    ensures { result ≡ is_export_byte byte }
{
    byte.is_ascii_alphanumeric() || matches!(byte, b'.' | b'_' | b'-')
}
