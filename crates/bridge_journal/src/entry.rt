//! What was called that changed something.
use uno_types::{Name, Text, Tid};
use uno_values::Value;

/// An entry of a journal. Roots are numbered from 1, behaviours from 0, and objects by the number in their identity.
pub enum Entry {
    /// Bytes came in.
    Fed(Vec<u8>),
    /// No more bytes come.
    Ended,
    /// The input or the output failed.
    Failed,
    /// A root asked the peer for the object of a name, under the wanted interface.
    Asked {
        root: u32,
        name: Text,
        wanted: Name,
    },
    /// A root called a function of an object.
    Called {
        root: u32,
        oid: Text,
        face: Name,
        function: u16,
        args: Vec<Value>,
    },
    /// A root asked an object for another interface.
    Queried {
        root: u32,
        oid: Text,
        face: Name,
        wanted: Name,
    },
    /// A root made an object of a behaviour, which it holds under the wanted interface.
    Made {
        root: u32,
        behaviour: u32,
        wanted: Name,
    },
    /// A root let an occurrence go.
    Dropped {
        root: u32,
        oid: Text,
        face: Name,
    },
    /// The statement at the top of a thread was carried out.
    Applied {
        tid: Tid,
    },
    /// A root took its outcome.
    Took {
        root: u32,
    },
    /// An object that nobody held went.
    Reaped {
        object: u32,
    },
    /// Bytes went out.
    Drained(Vec<u8>),
    /// The bridge was disposed.
    Disposed,
    /// A limit was reached.
    Full,
    NoMemory,
}

impl Drop for Entry {
    fn drop(self) {
        match self {
            Entry::Fed(bytes) => drop(bytes),
            Entry::Asked {
                root: _,
                name,
                wanted,
            } => {
                drop(name);
                drop(wanted);
            }
            Entry::Called {
                root: _,
                oid,
                face,
                function: _,
                args,
            } => {
                drop(oid);
                drop(face);
                drop(args);
            }
            Entry::Queried {
                root: _,
                oid,
                face,
                wanted,
            } => {
                drop(oid);
                drop(face);
                drop(wanted);
            }
            Entry::Made {
                root: _,
                behaviour: _,
                wanted,
            } => drop(wanted),
            Entry::Dropped { root: _, oid, face } => {
                drop(oid);
                drop(face);
            }
            Entry::Applied { tid } => drop(tid),
            Entry::Drained(bytes) => drop(bytes),
            Entry::Ended
            | Entry::Failed
            | Entry::Took { root: _ }
            | Entry::Reaped { object: _ }
            | Entry::Disposed
            | Entry::Full
            | Entry::NoMemory => {}
        }
    }
}
