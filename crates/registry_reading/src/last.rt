//! The last of a list.
ghost use Rattle.std.specs.Prelude.{◌≡◌, ◌++◌, ◌∷◌, [], MatchOption};

/// The last one, taken out.
pub(crate) fn take_last<T>(items: &mut Vec<T>) -> Option<T>
    ensures { MatchOption result ((items.old.items ≡ []) × (items.new.items ≡ [])) (λ x. items.old.items ≡ items.new.items ++ x ∷ []) }
{
    items.pop()
}
