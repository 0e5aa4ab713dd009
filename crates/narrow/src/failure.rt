// What failed, told on standard error.
use std::io::{Error, Stderr, Write};

// The system's word in the text of an error: without the number that std writes after it, and without the zeros at the end.
fn word_of(text: &str) -> &str {
    match text.split_once(" (os error ") {
        Some((word, _)) => word,
        None => text.trim_end_matches('\0'),
    }
}

// A line: what failed, and the system's word for it. There is room for the longest, of 256 bytes, and its number.
pub(crate) fn fail(stderr: Stderr, what: &str, error: Error) {
    let mut text = [0u8; 320];
    let mut room = &mut text[..];
    let _ = write!(room, "{error}");
    let word = word_of(std::str::from_utf8(&text).unwrap_or(""));
    let _ = println!(stderr; "{what}: {word}");
}
