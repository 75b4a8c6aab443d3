//! Ends with the tag `S`, by the text of their plan, over one registry.
//!
//! The functions of `demo.XEcho` are `twice`, 3; those of `demo.XNode` are `relay`, `turn`, `check` and `shut`, 3 to 6.
ghost use Rattle.std.specs.Prelude.{◌≡◌, []};

use bridge_endpoint::Endpoint;
use endpoint_text::{know_names, read_registry, set_up};
use std::alloc::Global;
use std::process::Abort;
use uno_types::Tag;

const TYPES: &str = "unoreg 1\n\
    exception demo.Refused com.sun.star.uno.Exception\nmember Code long\nend\n\
    interface demo.XEcho\nbase com.sun.star.uno.XInterface\n\
    method twice long\nparam in a long\nend\n\
    interface demo.XNode\nbase com.sun.star.uno.XInterface\n\
    method relay long\nparam in back demo.XNode\nparam in depth long\n\
    method turn com.sun.star.uno.XInterface\nparam in n demo.XNode\n\
    method check void\nparam in a long\nraises demo.Refused\n\
    method shut void\nend\n";

/// The object that each end exports as `echo` is `S;1`.
pub(crate) const ECHO: &str = "unoplan 1\n\
    behaviour Echo demo.XEcho\nmethod demo.XEcho twice\nreturn add($a,$a)\nend\nend\n\
    export \"echo\" Echo\n";

/// `S;1` is exported as `echo`, and `S;2` as `node`; there are two roots.
pub(crate) const NODE: &str = "unoplan 1\n\
    behaviour Echo demo.XEcho\nmethod demo.XEcho twice\nreturn add($a,$a)\nend\nend\n\
    behaviour Node demo.XNode\nfield kept demo.XNode\n\
    method demo.XNode relay\nwhen $depth == 0 return 0\n\
    call r long = $back.relay($self,sub($depth,1))\nreturn add($r,1)\nend\n\
    method demo.XNode turn\nset $.kept = $n\nreturn $n\nend\n\
    method demo.XNode check\nwhen $a == 0 return\nraise demo.Refused {\"no\",null,7}\nend\n\
    method demo.XNode shut\ndispose\nend\nend\n\
    export \"echo\" Echo\nexport \"node\" Node\n\
    thread\nend\nthread\nend\n";

/// An end of this plan; nothing has happened at it.
pub(crate) fn end_of(rt: &impl Abort, alloc: Global, plan: &str) -> Endpoint
    ensures { result.entries ≡ [] }
{
    match read_registry(alloc, TYPES.as_bytes()) {
        Ok(registry) => {
            know_names(&registry);
            let tag = Tag::read(alloc, "S").expect(rt, "no tag");
            set_up(alloc, tag, registry, plan.as_bytes()).expect(rt, "no end")
        }
        Err(_) => panic!(rt; "no registry"),
    }
}
