//! The object of a call, lent.
ghost use Rattle.std.specs.Prelude.{◌≡◌, IfOk};
ghost use Rattle.plan_model.specs.Calling.{object_of};
ghost use Rattle.plan_model.specs.Evaluation.{identity_of, value_of_word};
ghost use Rattle.plan_types.specs.Expressions.{word_of};
ghost use Rattle.uno_values.specs.References.{ref_of};
ghost use Rattle.behaviour.specs.Calling.{face_of, target_of};
ghost use Rattle.behaviour.specs.Running.{scene_of, value_or_void};

use crate::running::{Scene, Target};
use crate::words::value_under;
use plan_types::Word;
use uno_base::NoMemory;
use uno_values::{Reference, Value};

impl<'a> Target<'a> {
    /// The identity; null has none.
    pub fn oid(&self) -> &'a str
        ensures { result.now ≡ identity_of (target_of self.now) }
    {
        match self {
            Target::Null => "",
            Target::Local { oid, face: _ } | Target::Remote { oid, face: _ } => oid.as_str(),
        }
    }

    /// The interface; null has none.
    pub fn face(&self) -> &'a str
        ensures { result.now ≡ face_of (target_of self.now) }
    {
        match self {
            Target::Null => "",
            Target::Local { oid: _, face } | Target::Remote { oid: _, face } => face.as_str(),
        }
    }

    /// The same as a reference of its own.
    pub fn copy(&self) -> Result<Reference, NoMemory>
        ensures { IfOk result (λ r. ref_of r ≡ target_of self.now) }
    {
        match self {
            Target::Null => Ok(Reference::Null),
            Target::Local { oid, face } => {
                let oid = oid.copy()?;
                let face = face.copy()?;
                Ok(Reference::Local { oid, face })
            }
            Target::Remote { oid, face } => {
                let oid = oid.copy()?;
                let face = face.copy()?;
                Ok(Reference::Remote { oid, face })
            }
        }
    }
}

/// The object that a word stands for.
pub(crate) fn object_of_word<'a>(scene: Scene<'a>, word: &Word) -> Target<'a>
    ensures { target_of result ≡ object_of (value_of_word (scene_of scene.entry) (word_of word.now)) }
{
    match word {
        Word::Variable(name) => object_of(scene.variables.get(name)),
        Word::Field(name) => object_of(value_under(name, scene.fields)),
        Word::Own => scene.own,
    }
}

/// The object that a value is.
fn object_of(value: Option<&Value>) -> Target<'_>
    ensures { target_of result ≡ object_of (value_or_void value.entry) }
{
    let Some(value) = value else {
        return Target::Null;
    };
    let Value::Ref(reference) = value else {
        return Target::Null;
    };
    lent(reference)
}

fn lent(reference: &Reference) -> Target<'_>
    ensures { target_of result ≡ ref_of reference.now }
{
    match reference {
        Reference::Null => Target::Null,
        Reference::Local { oid, face } => Target::Local { oid, face },
        Reference::Remote { oid, face } => Target::Remote { oid, face },
    }
}
