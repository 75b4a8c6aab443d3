//! An effect as a text.
use crate::shown::Shown;
use behaviour::Effect;
use plan_types::Variable;
use uno_types::{Name, Registry};
use uno_values::Reference;

fn put_object(said: &mut Shown, reference: &Reference) {
    match reference {
        Reference::Null => said.put("null"),
        Reference::Local { oid, .. } | Reference::Remote { oid, .. } => said.put(oid.as_str()),
    }
}

fn put_variable(said: &mut Shown, registry: &Registry, what: &str, variable: &Variable) {
    said.put(what);
    said.put(variable.name.as_str());
    said.put(" ");
    said.put_value(registry, &variable.value);
}

fn put_words(said: &mut Shown, words: &[&str]) {
    for word in words {
        said.put(word);
    }
}

fn name_or_none(name: &Option<Name>) -> &str {
    match name {
        Some(name) => name.as_str(),
        None => "-",
    }
}

pub(crate) fn put_effect(said: &mut Shown, registry: &Registry, effect: &Effect) {
    match effect {
        Effect::Lets(variable) => put_variable(said, registry, "lets ", variable),
        Effect::Sets(variable) => put_variable(said, registry, "sets ", variable),
        Effect::SetsField(variable) => put_variable(said, registry, "keeps ", variable),
        Effect::Drops(name) => put_words(said, &["drops ", name.as_str()]),
        Effect::Skips => said.put("skips"),
        Effect::Calls {
            target,
            function,
            args,
            to,
        } => {
            said.put("calls ");
            put_object(said, target);
            said.put(" ");
            said.put_number(u64::from(*function));
            put_words(said, &[" to ", name_or_none(to), " with"]);
            said.values(registry, args);
        }
        Effect::Queries { target, wanted, to } => {
            said.put("queries ");
            put_object(said, target);
            put_words(said, &[" ", wanted.as_str(), " to ", to.as_str()]);
        }
        Effect::Makes {
            behaviour,
            face,
            to,
        } => {
            said.put("makes ");
            said.put_number(u64::from(*behaviour));
            put_words(said, &[" ", face.as_str(), " ", to.as_str()]);
        }
        Effect::Disposes => said.put("disposes"),
        Effect::Creates { name, args } => {
            put_words(said, &["creates ", name.as_str(), " with"]);
            said.values(registry, args);
        }
        Effect::Returns { value, outs } => {
            said.put("returns ");
            said.put_value(registry, value);
            said.put(" with");
            said.values(registry, outs);
        }
        Effect::Raises(any) => {
            said.put("raises ");
            said.put_any(registry, any);
        }
    }
}
