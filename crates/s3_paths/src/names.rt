//! Keys and local paths, made of relative paths.

ghost use Rattle.std.specs.Prelude.{◌≡◌, ◌≢◌, ◌↔◌, ◌++◌, IsTrue, length, OnOk, IfOk, IfErr, Some, None};
ghost use Rattle.std.specs.List.{list_any, list_all};
ghost use Rattle.s3_model.specs.Files.{folder_path};
ghost use Rattle.s3_model.specs.TempNames.{is_lower_hex, is_temp_ending, is_temp_name, IsTempName};
ghost use Rattle.s3_paths.specs.Names.{components, is_empty_name, is_dot_name, name_skip, key_skip, local_path};

use crate::uris::LONGEST_KEY;
use s3_model::{KeySkip, OutOfMemory, Text, ends_in_slash};
use std::alloc::Global;

const TEMP_ENDING: usize = 16;

fn is_lower_hex(byte: u8) -> bool
    ensures { result ≡ is_lower_hex byte }
{
    matches!(byte, b'0'..=b'9' | b'a'..=b'f')
}

fn all_lower_hex(bytes: &[u8]) -> bool
    ensures { result ≡ list_all is_lower_hex bytes.now }
{
    bytes.iter().all(|byte| is_lower_hex(*byte))
}

fn is_temp_ending(ending: &[u8]) -> bool
    requires { length ending.now ≡ TEMP_ENDING }
    ensures { result ≡ is_temp_ending ending.now }
{
    ending[0] == b'.' && all_lower_hex(&ending[1..9]) && &ending[9..] == b".s3part".as_slice()
}

fn is_temp_name(name: &str) -> bool
    ensures value { result ≡ is_temp_name name.now }
    ensures shape { IsTrue result ↔ IsTempName name.now }
{
    let bytes = name.as_bytes();
    bytes.len() >= TEMP_ENDING && is_temp_ending(&bytes[bytes.len() - TEMP_ENDING..])
}

fn is_dot_name(name: &str) -> bool
    ensures { result ≡ is_dot_name name.now }
{
    name == "." || name == ".."
}

fn has_empty_name(path: &str) -> bool
    ensures { result ≡ list_any is_empty_name (components path.now) }
{
    path.split('/').any(|name| name.is_empty())
}

fn has_dot_name(path: &str) -> bool
    ensures { result ≡ list_any is_dot_name (components path.now) }
{
    path.split('/').any(|name| is_dot_name(name))
}

fn has_temp_name(path: &str) -> bool
    ensures { result ≡ list_any is_temp_name (components path.now) }
{
    path.split('/').any(|name| is_temp_name(name))
}

/// Why a local file must not get a relative path: an empty name, `.` or `..`, or one that ends as temporary files do, in
/// `.`, eight lower-case hex digits and `.s3part`.
pub fn name_skip(path: &str) -> Option<KeySkip>
    ensures { result ≡ name_skip path.now }
{
    if has_empty_name(path) {
        Some(KeySkip::EmptyName)
    } else if has_dot_name(path) {
        Some(KeySkip::Dots)
    } else if has_temp_name(path) {
        Some(KeySkip::TempLike)
    } else {
        None
    }
}

/// The path of what a relative path names below a local folder: one `/` stands between them.
pub fn joined(alloc: Global, root: &str, below: &str) -> Result<Text, OutOfMemory>
    ensures path { IfOk result (λ path. path ≡ local_path root.now below.now) }
    ensures folder { IfOk result (λ path. path ≡ folder_path root.now ++ below.now) }
{
    let between = if ends_in_slash(root) { "" } else { "/" };
    Text::joined(alloc, &[root, between, below])
}

/// The path of a file below a local folder ([`joined`]).
///
/// Names that a local file must not get are refused ([`name_skip`]).
pub fn local_of(alloc: Global, root: &str, rel: &str) -> Result<Text, KeySkip>
    ensures kept { OnOk result (name_skip rel.now ≡ None) }
    ensures path { IfOk result (λ path. path ≡ local_path root.now rel.now) }
    ensures skip { IfErr result (λ skip. skip ≢ KeySkip.Memory → name_skip rel.now ≡ Some skip) }
{
    if let Some(skip) = name_skip(rel) {
        return Err(skip);
    }
    joined(alloc, root, rel).map_err(|_| KeySkip::Memory)
}

/// The key of an object: the prefix and then the relative path, of 1 to 1,024 bytes.
pub fn key_of(alloc: Global, prefix: &str, rel: &str) -> Result<Text, KeySkip>
    ensures kept { OnOk result (key_skip (prefix.now ++ rel.now) ≡ None) }
    ensures key { IfOk result (λ key. key ≡ prefix.now ++ rel.now) }
    ensures skip { IfErr result (λ skip. skip ≢ KeySkip.Memory → key_skip (prefix.now ++ rel.now) ≡ Some skip) }
{
    let size = prefix.len() + rel.len();
    if size == 0 {
        return Err(KeySkip::EmptyName);
    }
    if size > LONGEST_KEY {
        return Err(KeySkip::LongKey(size));
    }
    Text::joined(alloc, &[prefix, rel]).map_err(|_| KeySkip::Memory)
}
