//! What was read, behind others of its kind.
ghost use Rattle.std.specs.Prelude.{IfOk};
ghost use Rattle.registry_reading_model.specs.Bodies.{pushed};
ghost use Rattle.registry_reading.specs.Taken.{IsTaken};

use uno_base::NoMemory;

/// What was read, behind the others; false where nothing was.
pub(crate) fn push_read<T: Drop>(items: &mut Vec<T>, read: Option<T>) -> Result<bool, NoMemory>
    ensures { IfOk result (λ taken. IsTaken taken items.new.items (pushed items.old.items read)) }
{
    let Some(item) = read else {
        return Ok(false);
    };
    items.push(item)?;
    Ok(true)
}
