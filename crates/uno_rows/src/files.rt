//! What the files of the folder have.

use uno_io::{Files, StdFiles};

/// The bytes of a file; where there is none, no bytes.
pub(crate) fn bytes_in(rt: &HostRuntime, name: &str) -> Vec<u8> {
    let mut files = StdFiles::new(rt, rt.alloc());
    match files.read(name) {
        Ok(Some(bytes)) => bytes,
        _ => Vec::new(rt.alloc()),
    }
}
