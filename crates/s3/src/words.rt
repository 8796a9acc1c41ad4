//! The words behind the program's name.

use std::alloc::AllocError;
use std::env;
use std::env::{Env, FillError};

/// Why there are no words.
#[derive(Drop)]
pub(crate) enum Unread {
    /// A word that is no UTF-8, with its bytes escaped.
    Escaped(String),
    Memory,
}

impl From<AllocError> for Unread {
    fn from(_: AllocError) -> Unread {
        Unread::Memory
    }
}

/// The longest word in bytes that the system hands over.
const LONGEST_WORD: usize = 131_072;

/// The bytes of a word, with its visible ASCII characters as they are and every other byte as `\xNN`.
fn escape(rt: &HostRuntime, bytes: &[u8]) -> Result<String, AllocError> {
    let mut text = String::new(rt.alloc());
    for byte in bytes {
        if byte.is_ascii_graphic() && *byte != b'\\' {
            text.push(char::from(*byte))?;
        } else {
            text.push_str(&format!(in rt.alloc(); "\\x{byte:02x}")?)?;
        }
    }
    Ok(text)
}

/// The first word that is no UTF-8, escaped.
fn first_unreadable(rt: &HostRuntime) -> Result<String, AllocError> {
    let mut room = vec![in rt.alloc(); 0u8; LONGEST_WORD]?;
    for n in 1..usize::MAX {
        match rt.arg(n, &mut room) {
            Ok(length) => {
                let word = &room[..length];
                if str::from_utf8(word).is_err() {
                    return escape(rt, word);
                }
            }
            Err(FillError::NotPresent) => break,
            Err(FillError::TooLong) => {}
        }
    }
    Ok(String::new(rt.alloc()))
}

fn read(rt: &HostRuntime) -> std::io::Result<Vec<String>> {
    let mut words = Vec::new(rt.alloc());
    for word in env::args(rt)?.skip(1) {
        words.push(word)?;
    }
    Ok(words)
}

/// The words behind the program's name.
pub(crate) fn read_words(rt: &HostRuntime) -> Result<Vec<String>, Unread> {
    match read(rt) {
        Ok(words) => Ok(words),
        Err(error) if error.kind() == std::io::ErrorKind::InvalidData => {
            Err(Unread::Escaped(first_unreadable(rt)?))
        }
        Err(_) => Err(Unread::Memory),
    }
}
