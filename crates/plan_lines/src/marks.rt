//! Bytes that have to stand next.
ghost use Rattle.std.specs.Prelude.{◌≡◌, option_map, codes};
ghost use Rattle.plan_reading_model.specs.Parts as model;
ghost use Rattle.plan_reading_model.specs.Parts.{at_end, on_some};
ghost use Rattle.plan_lines.specs.Reads.{both, one};

const BLANK: &[u8] = b" ";

/// What stands behind these bytes, where they stand in front.
#[tactic(auto, unfolding(plan_reading_model::specs::Parts::behind))]
pub(crate) fn behind<'a>(front: &[u8], bytes: &'a [u8]) -> Option<&'a [u8]>
    ensures { option_map one result ≡ model.behind front.now bytes.now }
{
    if bytes.len() < front.len() {
        return None;
    }
    let (start, rest) = bytes.split_at(front.len());
    if start == front {
        return Some(rest);
    }
    None
}

/// What stands behind a blank.
pub(crate) fn behind_blank(bytes: &[u8]) -> Option<&[u8]>
    ensures { option_map one result ≡ model.behind (codes " ") bytes.now }
{
    behind(BLANK, bytes)
}

/// What was read, with a blank behind it, and what stands behind that.
pub(crate) fn before_blank<'a>(read: Option<(&'a str, &'a [u8])>) -> Option<(&'a str, &'a [u8])>
    ensures { option_map both result ≡ on_some (option_map both read.entry) model.behind_blank }
{
    let (text, rest) = read?;
    let rest = behind_blank(rest)?;
    Some((text, rest))
}

/// What was read, with nothing behind it.
pub(crate) fn whole<'a>(read: Option<(&'a str, &'a [u8])>) -> Option<&'a str>
    ensures { option_map one result ≡ at_end (option_map both read.entry) }
{
    let (text, rest) = read?;
    if !rest.is_empty() {
        return None;
    }
    Some(text)
}
