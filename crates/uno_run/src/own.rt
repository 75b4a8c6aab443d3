//! The texts of the endpoint that `answer` alone sets up: an object under the name `echo`, which doubles numbers.
ghost use Rattle.std.specs.Prelude.{◌≡◌};
ghost use Rattle.uno_run.specs.Own.{own_plan, own_types};

/// The text of the registry.
const TYPES: &str = "unoreg 1
exception demo.Refused com.sun.star.uno.Exception
member Code long
end
interface demo.XEcho
base com.sun.star.uno.XInterface
method twice long
param in a long
end
interface demo.XNode
base com.sun.star.uno.XInterface
method relay long
param in back demo.XNode
param in depth long
method turn com.sun.star.uno.XInterface
param in n demo.XNode
method thrice void
param in a demo.XNode
param in b demo.XNode
param in c demo.XNode
method check void
param in a long
raises demo.Refused
method forget void
method shut void
end
";

/// The text of the plan.
const PLAN: &str = "unoplan 1
behaviour Echo demo.XEcho
method demo.XEcho twice
return add($a,$a)
end
end
export \"echo\" Echo
";

#[tactic(auto, unfolding(crate::specs::Own::own_types))]
pub(crate) fn own_types() -> &'static [u8]
    ensures { result.now ≡ own_types }
{
    TYPES.as_bytes()
}

#[tactic(auto, unfolding(crate::specs::Own::own_plan))]
pub(crate) fn own_plan() -> &'static [u8]
    ensures { result.now ≡ own_plan }
{
    PLAN.as_bytes()
}
