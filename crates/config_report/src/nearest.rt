//! The word that was meant, perhaps.

use std::alloc::{AllocError, Global};
use strsim::osa_distance;

/// How long a text is at most for which a word is looked for, in bytes.
const LENGTH_LIMIT: usize = 80;

/// Whether a word may have been meant, by how many edits it is away: one for each three of its bytes.
fn is_near(edits: usize, word: &str) -> bool {
    edits <= word.len() / 3
}

/// The first of the words that are the fewest edits away, where that is near. An edit adds, drops or
/// changes a character, or swaps two; case does not count.
pub(crate) fn nearest<'w>(
    alloc: Global,
    given: &str,
    words: &[&'w str],
) -> Result<Option<&'w str>, AllocError> {
    if LENGTH_LIMIT < given.len() {
        return Ok(None);
    }
    let given = given.to_ascii_lowercase(alloc)?;
    let mut found: Option<&'w str> = None;
    let mut fewest = usize::MAX;
    for word in words {
        let lower = word.to_ascii_lowercase(alloc)?;
        let edits = osa_distance(alloc, given.as_str(), lower.as_str())?;
        if edits < fewest && is_near(edits, word) {
            found = Some(*word);
            fewest = edits;
        }
    }
    Ok(found)
}
