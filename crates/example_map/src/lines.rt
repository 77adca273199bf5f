//! The lines of a text.
use std::alloc::{AllocError, Global};

/// The lines of a text, each without its end. What stands behind the last end is a line where it
/// isn't empty.
///
/// # Errors
///
/// There was no memory.
pub fn lines_of(alloc: Global, bytes: &[u8]) -> Result<Vec<Vec<u8>>, AllocError> {
    let mut lines = Vec::new(alloc);
    let mut line = Vec::new(alloc);
    for byte in bytes {
        if *byte == b'\n' {
            lines.push(line)?;
            line = Vec::new(alloc);
        } else {
            line.push(*byte)?;
        }
    }
    if !line.is_empty() {
        lines.push(line)?;
    }
    Ok(lines)
}
