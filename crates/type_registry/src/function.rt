//! A function of an interface: lent by the registry, and as a value of its own.
ghost use Rattle.std.specs.Prelude.{◌≡◌, ◌++◌, ◌∷◌, [], length, map, option_map, slice_get, IfOk};
ghost use Rattle.uno_entities.specs.Entities.{attribute_of, param_of};
ghost use Rattle.uno_entities.specs.TypeNames.{kind_of};
ghost use Rattle.type_registry.specs.Functions.{function_of, lent_function, lent_param, member_name, kind_or_void};

use std::alloc::Global;
use uno_base::NoMemory;
use uno_entities::{copy_names, copy_params};
use uno_types::{Attribute, Method, Name, Param, TypeName, Way};

/// A function: a method, or one that reads or writes an attribute. Its owner is the interface that declares it.
#[derive(Drop)]
pub struct Function {
    pub owner: Name,
    pub name: Name,
    pub oneway: bool,
    pub result: TypeName,
    pub params: Vec<Param>,
    pub raises: Vec<Name>,
}

/// The same, lent by a registry.
#[derive(Clone, Copy)]
pub enum FunctionRef<'a> {
    Getter {
        owner: &'a Name,
        attribute: &'a Attribute,
    },
    Setter {
        owner: &'a Name,
        attribute: &'a Attribute,
    },
    Method {
        owner: &'a Name,
        method: &'a Method,
    },
}

/// A parameter of a function that is lent.
#[derive(Clone, Copy)]
pub struct ParamRef<'a> {
    pub way: Way,
    pub name: &'a Name,
    pub kind: &'a TypeName,
}

impl<'a> FunctionRef<'a> {
    /// The interface that declares it.
    pub fn owner(&self) -> &'a Name
        ensures { result.now ≡ (lent_function self.now).owner }
    {
        match self {
            FunctionRef::Getter { owner, .. }
            | FunctionRef::Setter { owner, .. }
            | FunctionRef::Method { owner, .. } => owner,
        }
    }

    /// What stands in its name before that of its attribute; a method has nothing there.
    pub fn prefix(&self) -> &'static str
        ensures { (lent_function self.now).name ≡ result.now ++ member_name self.now }
    {
        match self {
            FunctionRef::Getter { .. } => "get:",
            FunctionRef::Setter { .. } => "set:",
            FunctionRef::Method { .. } => "",
        }
    }

    /// The name of its attribute or method.
    pub fn member_name(&self) -> &'a Name
        ensures { result.now ≡ member_name self.now }
    {
        match self {
            FunctionRef::Getter { attribute, .. } | FunctionRef::Setter { attribute, .. } => {
                &attribute.name
            }
            FunctionRef::Method { method, .. } => &method.name,
        }
    }

    /// Whether its caller waits for no answer.
    pub fn is_oneway(&self) -> bool
        ensures { result ≡ (lent_function self.now).oneway }
    {
        let FunctionRef::Method { method, .. } = self else {
            return false;
        };
        method.oneway
    }

    /// The type of its result, as the registry has it. It has none for a setter, whose result is void.
    pub fn result(&self) -> Option<&'a TypeName>
        ensures { kind_or_void result ≡ (lent_function self.now).result_kind }
    {
        match self {
            FunctionRef::Getter { attribute, .. } => Some(&attribute.kind),
            FunctionRef::Setter { .. } => None,
            FunctionRef::Method { method, .. } => Some(&method.result),
        }
    }

    pub fn param_count(&self) -> usize
        ensures { result ≡ length (lent_function self.now).params }
    {
        match self {
            FunctionRef::Getter { .. } => 0,
            FunctionRef::Setter { .. } => 1,
            FunctionRef::Method { method, .. } => method.params.len(),
        }
    }

    /// The parameter at a place.
    pub fn param(&self, place: usize) -> Option<ParamRef<'a>>
        ensures { option_map lent_param result ≡ slice_get (lent_function self.now).params place }
    {
        match self {
            FunctionRef::Getter { .. } => None,
            FunctionRef::Setter { attribute, .. } => written(attribute, place),
            FunctionRef::Method { method, .. } => param_at(&method.params, place),
        }
    }

    /// The exceptions that it declares.
    pub fn raises(&self) -> &'a [Name]
        ensures { result.now ≡ (lent_function self.now).raises }
    {
        match self {
            FunctionRef::Getter { attribute, .. } => &attribute.get_raises,
            FunctionRef::Setter { attribute, .. } => &attribute.set_raises,
            FunctionRef::Method { method, .. } => &method.raises,
        }
    }

    /// The same as a value of its own.
    pub fn copy(&self, alloc: Global) -> Result<Function, NoMemory>
        ensures { IfOk result (λ f. function_of f ≡ lent_function self.now) }
    {
        let owner = self.owner().copy()?;
        let name = prefixed(alloc, self.prefix(), self.member_name())?;
        let raises = copy_names(alloc, self.raises())?;
        let params = parameters(alloc, self)?;
        let result = result_of(alloc, self)?;
        Ok(Function {
            owner,
            name,
            oneway: self.is_oneway(),
            result,
            params,
            raises,
        })
    }
}

/// A name behind a prefix.
fn prefixed(alloc: Global, prefix: &str, name: &Name) -> Result<Name, NoMemory>
    ensures { IfOk result (λ both. both ≡ prefix.now ++ name.now) }
{
    let mut text = String::from_str(alloc, prefix)?;
    text.push_str(name.as_str())?;
    Name::of(alloc, text.as_str())
}

fn result_of(alloc: Global, function: &FunctionRef) -> Result<TypeName, NoMemory>
    ensures { IfOk result (λ kind. kind_of kind ≡ (lent_function function.now).result_kind) }
{
    match function.result() {
        Some(kind) => kind.copy(alloc),
        None => Ok(TypeName::Void),
    }
}

fn parameters(alloc: Global, function: &FunctionRef) -> Result<Vec<Param>, NoMemory>
    ensures { IfOk result (λ copies. map param_of copies.items ≡ (lent_function function.now).params) }
{
    match function {
        FunctionRef::Getter { .. } => Ok(Vec::new(alloc)),
        FunctionRef::Setter { attribute, .. } => written_alone(alloc, attribute),
        FunctionRef::Method { method, .. } => copy_params(alloc, &method.params),
    }
}

/// The parameter of the function that writes an attribute, alone.
fn written_alone(alloc: Global, attribute: &Attribute) -> Result<Vec<Param>, NoMemory>
    ensures { IfOk result (λ params. map param_of params.items ≡ record { way = Way.Into; name = (attribute_of attribute.now).name; kind = (attribute_of attribute.now).kind } ∷ []) }
{
    let name = attribute.name.copy()?;
    let kind = attribute.kind.copy(alloc)?;
    let mut params = Vec::new(alloc);
    params.push(Param {
        way: Way::Into,
        name,
        kind,
    })?;
    Ok(params)
}

/// The one parameter of the function that writes an attribute.
fn written(attribute: &Attribute, place: usize) -> Option<ParamRef<'_>>
    ensures { option_map lent_param result ≡ slice_get (record { way = Way.Into; name = (attribute_of attribute.now).name; kind = (attribute_of attribute.now).kind } ∷ []) place }
{
    if place > 0 {
        return None;
    }
    Some(ParamRef {
        way: Way::Into,
        name: &attribute.name,
        kind: &attribute.kind,
    })
}

fn param_at(params: &[Param], place: usize) -> Option<ParamRef<'_>>
    ensures { option_map lent_param result ≡ slice_get (map param_of params.now) place }
{
    if place >= params.len() {
        return None;
    }
    let param = &params[place];
    Some(ParamRef {
        way: param.way,
        name: &param.name,
        kind: &param.kind,
    })
}
