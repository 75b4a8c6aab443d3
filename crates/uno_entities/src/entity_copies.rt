//! Copies of entities and of what is in them.
ghost use Rattle.std.specs.Prelude.{◌≡◌, map, IfOk};
ghost use Rattle.uno_model.specs.Entities as plain;
ghost use Rattle.uno_entities.specs.Entities.{field_of, base_of, attribute_of, method_of, member_of, item_of, constant_of, constructor_of, part_of, service_of, singleton_of, body_of, entity_of, entities_of};

use crate::{
    Attribute, Base, Body, Constant, Constructor, Entity, Field, Item, Member, Method, Name, Part,
    Service, Singleton, copy_names, copy_params,
};
use std::alloc::Global;
use uno_base::NoMemory;

/// Equal entities, in their order.
pub fn copy_entities(alloc: Global, entities: &[Entity]) -> Result<Vec<Entity>, NoMemory>
    ensures { IfOk result (λ copies. entities_of copies.items ≡ entities_of entities.now) }
{
    let mut copies = Vec::new(alloc);
    for entity in entities {
        copies.push(copy_entity(alloc, entity)?)?;
    }
    Ok(copies)
}

fn copy_entity(alloc: Global, entity: &Entity) -> Result<Entity, NoMemory>
    ensures { IfOk result (λ copy. entity_of copy ≡ entity_of entity.now) }
{
    let name = entity.name.copy()?;
    let body = copy_body(alloc, &entity.body)?;
    Ok(Entity {
        name,
        published: entity.published,
        body,
    })
}

fn copy_body(alloc: Global, body: &Body) -> Result<Body, NoMemory>
    ensures { IfOk result (λ copy. body_of copy ≡ body_of body.now) }
{
    match body {
        Body::Interface { bases, members } => copy_interface(alloc, bases, members),
        Body::Struct { base, members } => copy_struct(alloc, base, members),
        Body::Exception { base, members } => copy_exception(alloc, base, members),
        Body::Enum { items } => copy_enum(alloc, items),
        Body::Constants { constants } => copy_constants(alloc, constants),
        Body::Typedef { kind } => {
            let kind = kind.copy(alloc)?;
            Ok(Body::Typedef { kind })
        }
        Body::Service(service) => copy_service(alloc, service),
        Body::Singleton(singleton) => copy_singleton(singleton),
    }
}

fn copy_interface(alloc: Global, bases: &[Base], members: &[Member]) -> Result<Body, NoMemory>
    ensures { IfOk result (λ copy. body_of copy ≡ plain.interface (map base_of bases.now) (map member_of members.now)) }
{
    let bases = copy_bases(alloc, bases)?;
    let members = copy_members(alloc, members)?;
    Ok(Body::Interface { bases, members })
}

fn copy_struct(alloc: Global, base: &Option<Name>, members: &[Field]) -> Result<Body, NoMemory>
    ensures { IfOk result (λ copy. body_of copy ≡ plain.struct base.now (map field_of members.now)) }
{
    let base = copy_name_if_any(base)?;
    let members = copy_fields(alloc, members)?;
    Ok(Body::Struct { base, members })
}

fn copy_exception(alloc: Global, base: &Option<Name>, members: &[Field]) -> Result<Body, NoMemory>
    ensures { IfOk result (λ copy. body_of copy ≡ plain.exception base.now (map field_of members.now)) }
{
    let base = copy_name_if_any(base)?;
    let members = copy_fields(alloc, members)?;
    Ok(Body::Exception { base, members })
}

fn copy_name_if_any(name: &Option<Name>) -> Result<Option<Name>, NoMemory>
    ensures { IfOk result (λ copy. copy ≡ name.now) }
{
    match name {
        Some(name) => Ok(Some(name.copy()?)),
        None => Ok(None),
    }
}

fn copy_fields(alloc: Global, fields: &[Field]) -> Result<Vec<Field>, NoMemory>
    ensures { IfOk result (λ copies. map field_of copies.items ≡ map field_of fields.now) }
{
    let mut copies = Vec::new(alloc);
    for field in fields {
        copies.push(copy_field(alloc, field)?)?;
    }
    Ok(copies)
}

fn copy_field(alloc: Global, field: &Field) -> Result<Field, NoMemory>
    ensures { IfOk result (λ copy. field_of copy ≡ field_of field.now) }
{
    let name = field.name.copy()?;
    let kind = field.kind.copy(alloc)?;
    Ok(Field { name, kind })
}

fn copy_bases(alloc: Global, bases: &[Base]) -> Result<Vec<Base>, NoMemory>
    ensures { IfOk result (λ copies. map base_of copies.items ≡ map base_of bases.now) }
{
    let mut copies = Vec::new(alloc);
    for base in bases {
        copies.push(copy_base(base)?)?;
    }
    Ok(copies)
}

fn copy_base(base: &Base) -> Result<Base, NoMemory>
    ensures { IfOk result (λ copy. base_of copy ≡ base_of base.now) }
{
    let name = base.name.copy()?;
    Ok(Base {
        optional: base.optional,
        name,
    })
}

fn copy_members(alloc: Global, members: &[Member]) -> Result<Vec<Member>, NoMemory>
    ensures { IfOk result (λ copies. map member_of copies.items ≡ map member_of members.now) }
{
    let mut copies = Vec::new(alloc);
    for member in members {
        copies.push(copy_member(alloc, member)?)?;
    }
    Ok(copies)
}

fn copy_member(alloc: Global, member: &Member) -> Result<Member, NoMemory>
    ensures { IfOk result (λ copy. member_of copy ≡ member_of member.now) }
{
    match member {
        Member::Attribute(attribute) => Ok(Member::Attribute(copy_attribute(alloc, attribute)?)),
        Member::Method(method) => Ok(Member::Method(copy_method(alloc, method)?)),
    }
}

fn copy_attribute(alloc: Global, attribute: &Attribute) -> Result<Attribute, NoMemory>
    ensures { IfOk result (λ copy. attribute_of copy ≡ attribute_of attribute.now) }
{
    let name = attribute.name.copy()?;
    let kind = attribute.kind.copy(alloc)?;
    let get_raises = copy_names(alloc, &attribute.get_raises)?;
    let set_raises = copy_names(alloc, &attribute.set_raises)?;
    Ok(Attribute {
        name,
        read_only: attribute.read_only,
        kind,
        get_raises,
        set_raises,
    })
}

fn copy_method(alloc: Global, method: &Method) -> Result<Method, NoMemory>
    ensures { IfOk result (λ copy. method_of copy ≡ method_of method.now) }
{
    let name = method.name.copy()?;
    let result = method.result.copy(alloc)?;
    let params = copy_params(alloc, &method.params)?;
    let raises = copy_names(alloc, &method.raises)?;
    Ok(Method {
        name,
        oneway: method.oneway,
        result,
        params,
        raises,
    })
}

fn copy_enum(alloc: Global, items: &[Item]) -> Result<Body, NoMemory>
    ensures { IfOk result (λ copy. body_of copy ≡ plain.enum (map item_of items.now)) }
{
    let mut copies = Vec::new(alloc);
    for item in items {
        copies.push(copy_item(item)?)?;
    }
    Ok(Body::Enum { items: copies })
}

fn copy_item(item: &Item) -> Result<Item, NoMemory>
    ensures { IfOk result (λ copy. item_of copy ≡ item_of item.now) }
{
    let name = item.name.copy()?;
    Ok(Item {
        name,
        number: item.number,
    })
}

fn copy_constants(alloc: Global, constants: &[Constant]) -> Result<Body, NoMemory>
    ensures { IfOk result (λ copy. body_of copy ≡ plain.constants (map constant_of constants.now)) }
{
    let mut copies = Vec::new(alloc);
    for constant in constants {
        copies.push(copy_constant(alloc, constant)?)?;
    }
    Ok(Body::Constants { constants: copies })
}

fn copy_constant(alloc: Global, constant: &Constant) -> Result<Constant, NoMemory>
    ensures { IfOk result (λ copy. constant_of copy ≡ constant_of constant.now) }
{
    let name = constant.name.copy()?;
    let kind = constant.kind.copy(alloc)?;
    Ok(Constant {
        name,
        number: constant.number,
        kind,
    })
}

fn copy_service(alloc: Global, service: &Service) -> Result<Body, NoMemory>
    ensures { IfOk result (λ copy. body_of copy ≡ service_of service.now) }
{
    match service {
        Service::New { base, constructors } => copy_new_service(alloc, base, constructors),
        Service::Old { parts } => copy_old_service(alloc, parts),
    }
}

fn copy_new_service(
    alloc: Global,
    base: &Name,
    constructors: &[Constructor],
) -> Result<Body, NoMemory>
    ensures { IfOk result (λ copy. body_of copy ≡ plain.new_service base.now (map constructor_of constructors.now)) }
{
    let base = base.copy()?;
    let constructors = copy_constructors(alloc, constructors)?;
    Ok(Body::Service(Service::New { base, constructors }))
}

fn copy_constructors(
    alloc: Global,
    constructors: &[Constructor],
) -> Result<Vec<Constructor>, NoMemory>
    ensures { IfOk result (λ copies. map constructor_of copies.items ≡ map constructor_of constructors.now) }
{
    let mut copies = Vec::new(alloc);
    for constructor in constructors {
        copies.push(copy_constructor(alloc, constructor)?)?;
    }
    Ok(copies)
}

fn copy_constructor(alloc: Global, constructor: &Constructor) -> Result<Constructor, NoMemory>
    ensures { IfOk result (λ copy. constructor_of copy ≡ constructor_of constructor.now) }
{
    let name = constructor.name.copy()?;
    let params = copy_fields(alloc, &constructor.params)?;
    let rest = copy_name_if_any(&constructor.rest)?;
    let raises = copy_names(alloc, &constructor.raises)?;
    Ok(Constructor {
        name,
        params,
        rest,
        raises,
    })
}

fn copy_old_service(alloc: Global, parts: &[Part]) -> Result<Body, NoMemory>
    ensures { IfOk result (λ copy. body_of copy ≡ plain.old_service (map part_of parts.now)) }
{
    let mut copies = Vec::new(alloc);
    for part in parts {
        copies.push(copy_part(alloc, part)?)?;
    }
    Ok(Body::Service(Service::Old { parts: copies }))
}

fn copy_part(alloc: Global, part: &Part) -> Result<Part, NoMemory>
    ensures { IfOk result (λ copy. part_of copy ≡ part_of part.now) }
{
    match part {
        Part::Interface { optional, name } => Ok(Part::Interface {
            optional: *optional,
            name: name.copy()?,
        }),
        Part::Service { optional, name } => Ok(Part::Service {
            optional: *optional,
            name: name.copy()?,
        }),
        Part::Property { name, flags, kind } => Ok(Part::Property {
            name: name.copy()?,
            flags: *flags,
            kind: kind.copy(alloc)?,
        }),
    }
}

fn copy_singleton(singleton: &Singleton) -> Result<Body, NoMemory>
    ensures { IfOk result (λ copy. body_of copy ≡ singleton_of singleton.now) }
{
    match singleton {
        Singleton::New { base } => {
            let base = base.copy()?;
            Ok(Body::Singleton(Singleton::New { base }))
        }
        Singleton::Old { service } => {
            let service = service.copy()?;
            Ok(Body::Singleton(Singleton::Old { service }))
        }
    }
}
