//! Bytes as texts, and texts in parts.

use std::str;

/// The bytes as a text, or a word that says that they are none.
pub fn text_of(bytes: &[u8]) -> &str {
    str::from_utf8(bytes).unwrap_or("no text")
}

/// The word for whether something is so.
pub fn verdict(is_so: bool) -> &'static str {
    if is_so { "yes" } else { "no" }
}

/// The two parts of words with a bar between them. The second is empty where there is no bar.
pub fn parted(words: &str) -> (&str, &str) {
    words.split_once('|').unwrap_or((words, ""))
}
