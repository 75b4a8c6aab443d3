//! What the service manager is asked for.
ghost use Rattle.std.specs.Prelude.{◌≡◌, ◌∷◌, [], suc, true, List, Some, IfOk, OnOk, OnErr, map};
ghost use Rattle.behaviour.specs.Answers.{raised_of};
ghost use Rattle.bridge_model.specs.Applying.{applies_creating, returns_object};
ghost use Rattle.bridge_model.specs.Handing.{ends_frame};
ghost use Rattle.bridge_model.specs.Objects.{makes_object};
ghost use Rattle.bridge_model.specs.Settings.{own_oid};
ghost use Rattle.bridge_setting.specs.Settings.{setting_of};
ghost use Rattle.bridge_tables.specs.EndTables.{IsOf, lasting};
ghost use Rattle.message_model.specs.Messages.{raised, returned};
ghost use Rattle.plan_model.specs.Frames as plain;
ghost use Rattle.plan_model.specs.Frames.{frames_of, is_body, top};
ghost use Rattle.plan_model.specs.Leaving.{leaving_frame};
ghost use Rattle.plan_model.specs.Plans.{singleton_object};
ghost use Rattle.plan_model.specs.Services.{created};
ghost use Rattle.plan_types.specs.Plans.{plan_of};
ghost use Rattle.uno_model.specs.BuiltIn.{exception_name, x_interface_name};
ghost use Rattle.uno_model.specs.Kinds as kd;
ghost use Rattle.uno_model.specs.Sound.{IsSound};
ghost use Rattle.uno_model.specs.Values as v;
ghost use Rattle.uno_values.specs.Values.{plain_of};
ghost use Rattle.urp_message.specs.Messages.{answer_of};
ghost use Rattle.bridge_frames.specs.Refusing.{refused};
ghost use Rattle.bridge_frames.specs.Unwinding.{stacks_by, tables_by};

use crate::handing::end_frame;
use behaviour::leaving_exception;
use bridge_setting::Setting;
use bridge_tables::Tables;
use call_stacks::Stacks;
use plan_types::Frame;
use service_manager::{CreateError, Created, create};
use std::alloc::Global;
use uno_base::NoMemory;
use uno_types::{Name, Text, Tid, TypeName};
use uno_values::{AnyValue, Reference, Value};
use urp_message::Answer;

/// The service manager returns what it creates, or raises why it creates nothing.
pub(crate) fn apply_creating(
    alloc: Global,
    setting: &Setting,
    tid: &Tid,
    name: &Text,
    args: &[Value],
    stacks: &mut Stacks,
    tables: &mut Tables,
) -> Result<(), NoMemory>
    requires of { IsOf (setting_of setting.now) tables.old }
    requires stands { tables.old.stands ≡ true }
    requires sound { IsSound setting.now.registry }
    requires method { is_body (top tid.now stacks.old) ≡ true }
    ensures stacks { (b : plain.Body) → (fs : List plain.Frame) → frames_of tid.now stacks.old ≡ plain.body b ∷ fs → OnOk result (stacks.new ≡ stacks_by tid.now (applies_creating (setting_of setting.now) tid.now b name.now (created (plan_of setting.now.plan) setting.now.registry name.now (map plain_of args.now)) fs tables.old.tables) stacks.old) }
    ensures tables { (b : plain.Body) → (fs : List plain.Frame) → frames_of tid.now stacks.old ≡ plain.body b ∷ fs → OnOk result (tables.new ≡ tables_by (applies_creating (setting_of setting.now) tid.now b name.now (created (plan_of setting.now.plan) setting.now.registry name.now (map plain_of args.now)) fs tables.old.tables) tables.old) }
    ensures lost { OnErr result (lasting tables.new ≡ lasting tables.old) }
{
    match create(alloc, &setting.plan, &setting.registry, name.as_str(), args) {
        Ok(Created::Fresh { behaviour, fields }) => {
            return_fresh(alloc, setting, tid, behaviour, fields, stacks, tables)
        }
        Ok(Created::Singleton(place)) => {
            let number = singleton_object(setting, place)?;
            return_object(alloc, setting, tid, number, stacks, tables)
        }
        Err(CreateError::NoMemory) => Err(NoMemory),
        Err(CreateError::UnknownService) => {
            refuse(
                alloc,
                setting,
                tid,
                "unknown service ",
                name,
                stacks,
                tables,
            )
        }
        Err(CreateError::BadArguments) => {
            refuse(alloc, setting, tid, "bad arguments ", name, stacks, tables)
        }
    }
}

/// A new object of a behaviour, with these values of its fields.
fn return_fresh(
    alloc: Global,
    setting: &Setting,
    tid: &Tid,
    behaviour: u32,
    fields: Vec<Value>,
    stacks: &mut Stacks,
    tables: &mut Tables,
) -> Result<(), NoMemory>
    requires of { IsOf (setting_of setting.now) tables.old }
    requires stands { tables.old.stands ≡ true }
    requires sound { IsSound setting.now.registry }
    requires method { is_body (top tid.now stacks.old) ≡ true }
    ensures stacks { (b : plain.Body) → (fs : List plain.Frame) → frames_of tid.now stacks.old ≡ plain.body b ∷ fs → OnOk result (stacks.new ≡ stacks_by tid.now (returns_object (setting_of setting.now) tid.now b (suc tables.old.tables.objects_made) fs (makes_object behaviour (map plain_of fields.items) tables.old.tables)) stacks.old) }
    ensures tables { (b : plain.Body) → (fs : List plain.Frame) → frames_of tid.now stacks.old ≡ plain.body b ∷ fs → OnOk result (tables.new ≡ tables_by (returns_object (setting_of setting.now) tid.now b (suc tables.old.tables.objects_made) fs (makes_object behaviour (map plain_of fields.items) tables.old.tables)) tables.old) }
    ensures lost { OnErr result (lasting tables.new ≡ lasting tables.old) }
{
    let number = tables.make(setting, behaviour, fields)?;
    match return_object(alloc, setting, tid, number, stacks, tables) {
        Ok(()) => Ok(()),
        Err(NoMemory) => {
            tables.unmake();
            Err(NoMemory)
        }
    }
}

/// The number of the object of a singleton: those stand behind the exported ones and the service manager.
fn singleton_object(setting: &Setting, place: u32) -> Result<u32, NoMemory>
    ensures { IfOk result (λ n. n ≡ singleton_object (plan_of setting.now.plan) place) }
{
    let number = setting.plan.exports.len() as u64 + 2 + place as u64;
    match u32::try_from(number) {
        Ok(number) => Ok(number),
        Err(_) => Err(NoMemory),
    }
}

/// What the service manager creates is returned under XInterface.
fn return_object(
    alloc: Global,
    setting: &Setting,
    tid: &Tid,
    number: u32,
    stacks: &mut Stacks,
    tables: &mut Tables,
) -> Result<(), NoMemory>
    requires of { IsOf (setting_of setting.now) tables.old }
    requires stands { tables.old.stands ≡ true }
    requires sound { IsSound setting.now.registry }
    requires method { is_body (top tid.now stacks.old) ≡ true }
    ensures stacks { (b : plain.Body) → (fs : List plain.Frame) → frames_of tid.now stacks.old ≡ plain.body b ∷ fs → OnOk result (stacks.new ≡ stacks_by tid.now (returns_object (setting_of setting.now) tid.now b number fs tables.old.tables) stacks.old) }
    ensures tables { (b : plain.Body) → (fs : List plain.Frame) → frames_of tid.now stacks.old ≡ plain.body b ∷ fs → OnOk result (tables.new ≡ tables_by (returns_object (setting_of setting.now) tid.now b number fs tables.old.tables) tables.old) }
    ensures lost { OnErr result (lasting tables.new ≡ lasting tables.old) }
{
    let answer = object_returned(alloc, setting, number)?;
    end_frame(alloc, setting, tid, answer, stacks, tables)
}

fn object_returned(alloc: Global, setting: &Setting, number: u32) -> Result<Answer, NoMemory>
    ensures { IfOk result (λ a. answer_of a ≡ returned (v.ref (v.own (own_oid (setting_of setting.now) number) x_interface_name)) []) }
{
    let oid = setting.own_oid(alloc, number)?;
    let face = Name::of(alloc, X_INTERFACE)?;
    Ok(Answer::Returned {
        value: Value::Ref(Reference::Local { oid, face }),
        outs: Vec::new(alloc),
    })
}

const X_INTERFACE: &str = "com.sun.star.uno.XInterface";

const EXCEPTION: &str = "com.sun.star.uno.Exception";

/// The service manager raises the exception that says why nothing is created.
fn refuse(
    alloc: Global,
    setting: &Setting,
    tid: &Tid,
    front: &str,
    name: &Text,
    stacks: &mut Stacks,
    tables: &mut Tables,
) -> Result<(), NoMemory>
    requires of { IsOf (setting_of setting.now) tables.old }
    requires stands { tables.old.stands ≡ true }
    requires sound { IsSound setting.now.registry }
    requires method { is_body (top tid.now stacks.old) ≡ true }
    ensures stacks { (b : plain.Body) → (fs : List plain.Frame) → frames_of tid.now stacks.old ≡ plain.body b ∷ fs → OnOk result (stacks.new ≡ stacks_by tid.now (ends_frame (setting_of setting.now) tid.now b (leaving_frame setting.now.registry tid.now b (raised (kd.exception exception_name) (refused front.now name.now))) fs tables.old.tables) stacks.old) }
    ensures tables { (b : plain.Body) → (fs : List plain.Frame) → frames_of tid.now stacks.old ≡ plain.body b ∷ fs → OnOk result (tables.new ≡ tables_by (ends_frame (setting_of setting.now) tid.now b (leaving_frame setting.now.registry tid.now b (raised (kd.exception exception_name) (refused front.now name.now))) fs tables.old.tables) tables.old) }
    ensures lost { OnErr result (lasting tables.new ≡ lasting tables.old) }
{
    let exception = refusal(alloc, front, name)?;
    let left = left_by(alloc, setting, tid, exception, stacks)?;
    end_frame(alloc, setting, tid, Answer::Raised(left), stacks, tables)
}

/// The exception of a refusal.
fn refusal(alloc: Global, front: &str, name: &Text) -> Result<AnyValue, NoMemory>
    ensures { IfOk result (λ x. raised_of x ≡ raised (kd.exception exception_name) (refused front.now name.now)) }
{
    let kind = Name::of(alloc, EXCEPTION)?;
    let tag = Name::of(alloc, EXCEPTION)?;
    let mut message = String::from_str(alloc, front)?;
    message.push_str(name.as_str())?;
    let mut members = Vec::new(alloc);
    members.push(Value::Str(Text::from_string(message)?))?;
    members.push(Value::Ref(Reference::Null))?;
    Ok(AnyValue {
        kind: TypeName::Exception(kind),
        value: Value::Tuple(tag, members),
    })
}

/// What leaves the method at the top that an exception ends.
fn left_by(
    alloc: Global,
    setting: &Setting,
    tid: &Tid,
    exception: AnyValue,
    stacks: &Stacks,
) -> Result<AnyValue, NoMemory>
    requires { IsSound setting.now.registry }
    ensures { (b : plain.Body) → top tid.now stacks.now ≡ Some (plain.body b) → IfOk result (λ x. raised_of x ≡ leaving_frame setting.now.registry tid.now b (raised_of exception)) }
{
    let Some(Frame::Body(body)) = stacks.top(tid) else {
        return Ok(exception);
    };
    leaving_exception(
        alloc,
        &setting.registry,
        tid,
        &body.face,
        body.function,
        exception,
    )
}
