//! Sources in memory.
ghost use Rattle.std.specs.Prelude.{◌<◌, All};

use std::alloc::Global;
use std::process::Abort;
use uno_io::MemSource;

/// The sizes, none of which is 0.
fn sizes_of(alloc: Global, sizes: &[usize]) -> Vec<usize>
    ensures { All (λ n. 0 < n) result.items }
{
    let mut all = Vec::new(alloc);
    for size in sizes {
        all.push((*size).max(1)).ok();
    }
    all
}

/// A source of the bytes in pieces of these sizes, of which the reads with these numbers fail.
pub(crate) fn source_of(
    rt: &impl Abort,
    alloc: Global,
    bytes: Vec<u8>,
    sizes: &[usize],
    failing: &[u64],
) -> MemSource {
    let failing = Vec::from_slice(alloc, failing).expect(rt, "no memory");
    MemSource::new(bytes, sizes_of(alloc, sizes), failing)
}
