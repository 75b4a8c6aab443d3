//! Where memory runs out: `rt try --test --fail-alloc N` makes the Nth request fail, and this test passes for each N.
use crate::judging::see;

mod compiled;
mod copies;
mod registries;
mod slots;
mod values;

#[test]
fn each_call_is_right_or_finds_no_memory(rt: HostRuntime) {
    see(
        &rt,
        compiled::are_compiled(rt.alloc()) != Ok(false),
        "files",
    );
    see(&rt, copies::are_right(rt.alloc()) != Ok(false), "copies");
    see(&rt, copies::are_tags(rt.alloc()) != Ok(false), "tags");
    see(&rt, registries::run(rt.alloc()) != Ok(false), "registries");
    see(&rt, slots::sends(rt.alloc()) != Ok(false), "what is sent");
    see(&rt, slots::reads(rt.alloc()) != Ok(false), "what is read");
    see(&rt, values::are_right(rt.alloc()) != Ok(false), "values");
}
