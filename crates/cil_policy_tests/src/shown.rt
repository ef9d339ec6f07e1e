//! Bytes as text.

/// The bytes of an answer as text.
pub fn shown(bytes: &[u8]) -> &str {
    str::from_utf8(bytes).unwrap_or("no text")
}
