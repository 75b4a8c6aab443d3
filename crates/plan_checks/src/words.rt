//! What the words of a line stand for.
ghost use Rattle.std.specs.Prelude.{◌≡◌, option_map, IfOk, is_some};
ghost use Rattle.plan_model.specs.Contexts.{kind_of_variable, kind_of_field, kind_of_word, own_kind};
ghost use Rattle.plan_types.specs.Expressions.{word_of};
ghost use Rattle.uno_entities.specs.TypeNames.{kind_of};
ghost use Rattle.plan_checks.specs.Contexts.{context_of, block_of};
ghost use Rattle.plan_checks.specs.Lent.{lent_kind};

use crate::context::{Block, Context};
use crate::kinds::LentKind;
use plan_types::Word;
use uno_base::NoMemory;
use uno_types::{Name, TypeName};

/// The type of a variable.
#[tactic(auto, unfolding(plan_model::specs::Contexts::kind_of_variable))]
pub(crate) fn kind_of_variable<'a>(context: &'a Context, name: &Name) -> Option<&'a TypeName>
    ensures { option_map (λ k. kind_of k.now) result ≡ kind_of_variable (context_of context.now) name.now }
{
    context.variables.kind(name)
}

/// The type of a field of the open behaviour.
#[tactic(auto, unfolding(plan_model::specs::Contexts::kind_of_field))]
pub(crate) fn kind_of_field<'a>(context: &'a Context, name: &str) -> Option<&'a TypeName>
    ensures { option_map (λ k. kind_of k.now) result ≡ kind_of_field (context_of context.now) name.now }
{
    match &context.block {
        Block::Behaviour(behaviour) => behaviour.fields.kind(name),
        Block::Method(behaviour, _) => behaviour.fields.kind(name),
        Block::Top | Block::Thread(_) => None,
    }
}

/// The type of the own object.
fn own_kind(block: &Block) -> Option<LentKind<'_>>
    ensures { option_map lent_kind result ≡ own_kind (block_of block.now) }
{
    let Block::Method(_, opened) = block else {
        return None;
    };
    Some(LentKind::Interface(&opened.method.face))
}

fn lent(kind: Option<&TypeName>) -> Option<LentKind<'_>>
    ensures { option_map lent_kind result ≡ option_map (λ k. kind_of k.now) kind.entry }
{
    Some(LentKind::Whole(kind?))
}

/// The type of what a word stands for.
#[tactic(auto, unfolding(plan_model::specs::Contexts::kind_of_word))]
pub(crate) fn kind_of_word<'a>(context: &'a Context, word: &Word) -> Option<LentKind<'a>>
    ensures { option_map lent_kind result ≡ kind_of_word (context_of context.now) (word_of word.now) }
{
    match word {
        Word::Variable(name) => lent(kind_of_variable(context, name)),
        Word::Field(name) => lent(kind_of_field(context, name.as_str())),
        Word::Own => own_kind(&context.block),
    }
}

/// An equal word.
pub(crate) fn copy_word(word: &Word) -> Result<Word, NoMemory>
    ensures { IfOk result (λ copy. word_of copy ≡ word_of word.now) }
{
    match word {
        Word::Variable(name) => Ok(Word::Variable(name.copy()?)),
        Word::Field(name) => Ok(Word::Field(name.copy()?)),
        Word::Own => Ok(Word::Own),
    }
}
