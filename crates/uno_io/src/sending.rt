//! Which sources, sinks and files may be sent to a thread.

use crate::{MemFiles, MemSink, MemSource, StdSink, StdSource};
use std::io::{Read, Write};

/// Takes only what may be sent to a thread.
fn sent<T: Send>(_: &T) {}

/// A source, a sink and files in memory may be sent.
fn memory_may_be_sent(source: &MemSource, sink: &MemSink, files: &MemFiles) {
    sent(source);
    sent(sink);
    sent(files);
}

/// A reader or a writer that may be sent may be so as a source or a sink.
fn streams_may_be_sent<R: Read + Drop + Send, W: Write + Drop + Send>(
    source: &StdSource<R>,
    sink: &StdSink<W>,
) {
    sent(source);
    sent(sink);
}
