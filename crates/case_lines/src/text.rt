// Bytes as ASCII, and back.
use std::alloc::{AllocError, Global};

// What a hexadecimal digit stands for. Any other byte counts as 0.
fn digit(byte: u8) -> u8 {
    match byte {
        b'0'..=b'9' => byte - b'0',
        b'a'..=b'f' => byte - b'a' + 10,
        _ => 0,
    }
}

/// The bytes that a text stands for: a backslash and the two hexadecimal digits behind it are one byte.
pub fn bytes_of(alloc: Global, text: &str) -> Result<Vec<u8>, AllocError> {
    let mut bytes = Vec::new(alloc);
    let mut high: Option<Option<u8>> = None;
    for byte in text.as_bytes() {
        high = match high {
            None if *byte == b'\\' => Some(None),
            None => {
                bytes.push(*byte)?;
                None
            }
            Some(None) => Some(Some(digit(*byte))),
            Some(Some(first)) => {
                bytes.push(first.wrapping_mul(16).wrapping_add(digit(*byte)))?;
                None
            }
        };
    }
    Ok(bytes)
}

/// The bytes of a text of two hexadecimal digits a byte.
pub fn hex_of(alloc: Global, text: &str) -> Result<Vec<u8>, AllocError> {
    let mut bytes = Vec::new(alloc);
    let mut high = None;
    for byte in text.as_bytes() {
        high = match high {
            None => Some(digit(*byte)),
            Some(first) => {
                let first: u8 = first;
                bytes.push(first.wrapping_mul(16).wrapping_add(digit(*byte)))?;
                None
            }
        };
    }
    Ok(bytes)
}

/// Writes two hexadecimal digits for each byte.
pub fn show_hex(out: &mut String, bytes: &[u8]) -> Result<(), AllocError> {
    for byte in bytes {
        write!(out, "{byte:02x}")?;
    }
    Ok(())
}

/// Writes bytes so that `bytes_of` reads them back. The bytes of a mark, of a blank for one, are written by digits too.
pub fn show_text(out: &mut String, bytes: &[u8], mark: u8) -> Result<(), AllocError> {
    for byte in bytes {
        if *byte < 32 || *byte > 126 || *byte == b'\\' || *byte == mark {
            write!(out, "\\{byte:02x}")?;
        } else {
            out.push(*byte as char)?;
        }
    }
    Ok(())
}
