//! The entries of a batch: what is wrong with the whole of it, or with one of them.

use crate::batch::{Entries, EntryKind};
use crate::entries::{LONGEST_BATCH, MOST_ENTRIES, entries_of, entry_id, entry_size};
use crate::explanation::sent::look_at_message;
use crate::explanation::single::{look_at_handle, look_at_timeout, no_name};
use crate::explanation::words::{Finding, Looked, found, grouped, missing, quoted};
use crate::members::{items_in, text_in};
use message::Fault;
use serde_json::Value;
use std::alloc::Global;

/// Looks at the entries of a batch as a whole: how many there are, their ids, their size.
pub(super) fn look_at_entries(alloc: Global, kind: EntryKind, body: &Value) -> Looked {
    let Some(items) = items_in(body, "Entries") else {
        return missing(alloc, "", "Entries", body);
    };
    let count = items.len();
    if count == 0 {
        return found(format!(in alloc;
            "Entries has no entries, and 1 to {MOST_ENTRIES} are wanted"
        ));
    }
    if count > MOST_ENTRIES {
        return found(format!(in alloc; "Entries has {count} entries, more than {MOST_ENTRIES}"));
    }
    look_at_ids(alloc, items)?;
    look_at_equal_ids(alloc, items)?;
    look_at_size(alloc, kind, items)
}

/// Looks at the id of each entry.
fn look_at_ids(alloc: Global, items: &[Value]) -> Looked {
    for (place, item) in items.iter().enumerate() {
        let id = text_in(item, "Id");
        if entry_id(id).is_err() {
            let before = format!(in alloc; "Entries[{place}].")?;
            return match id {
                Some(id) => {
                    let place = format!(in alloc; "{before}Id")?;
                    no_name(alloc, place.as_str(), id)
                }
                None => missing(alloc, before.as_str(), "Id", item),
            };
        }
    }
    Ok(())
}

/// Looks for an entry that has the id of one before it.
fn look_at_equal_ids(alloc: Global, items: &[Value]) -> Looked {
    for (place, item) in items.iter().enumerate() {
        for (other, later) in items.iter().enumerate() {
            if place < other && text_in(item, "Id") == text_in(later, "Id") {
                let id = quoted(alloc, text_in(item, "Id").unwrap_or(""))?;
                return found(format!(in alloc;
                    "Entries[{place}].Id and Entries[{other}].Id are both {id}"
                ));
            }
        }
    }
    Ok(())
}

/// How many bytes entries send together.
fn total(entries: &Entries) -> u64 {
    let mut total = 0u64;
    for entry in entries.as_slice() {
        total = total.saturating_add(entry_size(entry));
    }
    total
}

/// Looks at how many bytes the entries send together.
fn look_at_size(alloc: Global, kind: EntryKind, items: &[Value]) -> Looked {
    let total = match entries_of(alloc, kind, items) {
        Ok(entries) => total(&entries),
        Err(Fault::OutOfMemory) => return Err(Finding::OutOfMemory),
        Err(_) => return Ok(()),
    };
    if total <= LONGEST_BATCH {
        return Ok(());
    }
    let total = grouped(alloc, total)?;
    let most = grouped(alloc, LONGEST_BATCH)?;
    found(format!(in alloc; "Entries has {total} bytes of messages together, more than {most}"))
}

/// Looks at what an entry asks of the queue.
pub(super) fn look_at_entry(alloc: Global, kind: EntryKind, place: usize, item: &Value) -> Looked {
    let before = format!(in alloc; "Entries[{place}].")?;
    match kind {
        EntryKind::Send => look_at_message(alloc, before.as_str(), item),
        EntryKind::Delete => look_at_handle(alloc, before.as_str(), item),
        EntryKind::Change => {
            look_at_handle(alloc, before.as_str(), item)?;
            look_at_timeout(alloc, before.as_str(), item)
        }
    }
}
