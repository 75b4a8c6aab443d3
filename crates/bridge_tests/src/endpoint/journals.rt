//! Journals as words: each entry by its name, and bytes as digits; pieces that came in one behind the other stand as one.
use crate::shown::Shown;
use bridge_endpoint::Entry;

pub(crate) fn show_journal(journal: &[Entry], shown: &mut Shown) {
    let mut was_fed = false;
    for entry in journal {
        shown.put(name_of(entry, was_fed));
        shown.bytes(bytes_in(entry));
        was_fed = matches!(entry, Entry::Fed(_));
    }
}

/// The bytes that came in or went out by an entry.
fn bytes_in(entry: &Entry) -> &[u8] {
    match entry {
        Entry::Fed(bytes) | Entry::Drained(bytes) => bytes,
        _ => &[],
    }
}

fn name_of(entry: &Entry, was_fed: bool) -> &'static str {
    match entry {
        Entry::Fed(_) if was_fed => "",
        Entry::Fed(_) => " Fed:",
        Entry::Ended => " Ended",
        Entry::Failed => " Failed",
        Entry::Asked { .. } => " Asked",
        Entry::Called { .. } => " Called",
        Entry::Queried { .. } => " Queried",
        Entry::Made { .. } => " Made",
        Entry::Dropped { .. } => " Dropped",
        Entry::Applied { .. } => " Applied",
        Entry::Took { .. } => " Took",
        Entry::Reaped { .. } => " Reaped",
        Entry::Drained(_) => " Drained:",
        Entry::Disposed => " Disposed",
        Entry::Full => " Full",
        Entry::NoMemory => " NoMemory",
    }
}
