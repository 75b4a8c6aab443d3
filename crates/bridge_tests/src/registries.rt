//! The registry of the tests, and plans over it. `demo.XNode` derives from `demo.XBase`, and `demo.XOther` from neither. The functions of
//! `demo.XNode` are `twice(in a)`, which is 3 and returns a long, `swap(in a, out b, inout c)`, 4, which returns nothing, and `both`, 5,
//! with the same parameters, which returns a long; all of them are longs.
ghost use Rattle.uno_model.specs.Sound.{IsSound};

use crate::texts::{plan_of, registry_of, text_of};
use plan_types::{Export, Plan};
use std::alloc::Global;
use std::process::Abort;
use uno_types::Registry;

pub(crate) const NODE: &str = "demo.XNode";

const TYPES: &str = "unoreg 1\n\
    service demo.Nodes new demo.XNode\nconstructor create\nend\n\
    interface demo.XBase\nbase com.sun.star.uno.XInterface\nend\n\
    interface demo.XNode\nbase demo.XBase\n\
    method twice long\nparam in a long\n\
    method swap void\nparam in a long\nparam out b long\nparam inout c long\n\
    method both long\nparam in a long\nparam out b long\nparam inout c long\nend\n\
    interface demo.XOther\nbase com.sun.star.uno.XInterface\nend\n\
    singleton demo.one new demo.XNode\nend\n\
    singleton demo.two new demo.XNode\nend\n";

/// Two behaviours and two roots; `both` calls itself, once with a name for the result and once without.
const PLAN: &str = "unoplan 1\n\
    behaviour Node demo.XNode\n\
    method demo.XNode both\ncall r long = $self.both(1,$a,$b)\ncall $self.both(1,$a,$b)\nreturn $r\nend\n\
    end\n\
    behaviour Other demo.XOther demo.XBase\nend\n\
    export \"echo\" Node\nexport \"node\" Other\n\
    thread\nend\nthread\nend\n";

pub(crate) fn registry(rt: &impl Abort, alloc: Global) -> Registry
    ensures { IsSound result }
{
    registry_of(rt, alloc, TYPES)
}

/// The plan with these lines of services and singletons. Its third export has the name of the first, which no text of a plan says.
pub(crate) fn plan(rt: &impl Abort, alloc: Global, registry: &Registry, offers: &str) -> Plan
    requires { IsSound registry.now }
{
    let mut plan = read(rt, alloc, registry, offers);
    let name = text_of(rt, alloc, "echo");
    plan.exports.push(Export { name, behaviour: 1 }).ok();
    plan
}

fn read(rt: &impl Abort, alloc: Global, registry: &Registry, offers: &str) -> Plan
    requires { IsSound registry.now }
{
    let mut lines = String::new(alloc);
    lines.push_str(PLAN).ok();
    lines.push_str(offers).ok();
    plan_of(rt, alloc, registry, &lines)
}
