//! Names and contents of texts.
ghost use Rattle.std.specs.Prelude.{◌≡◌, ◌≤◌, ◌+◌, IsTrue, length, drop};
ghost use Rattle.std.specs.List.{list_all, prefix_len};
ghost use Rattle.aw_spelling.specs.Spelling.{is_digit, is_letter, is_name, is_name_byte, is_content, is_content_byte};

use crate::lanes::{LANES, name_lanes};

/// The most bytes of a name.
pub const MOST_OF_NAME: usize = 64;

/// The most bytes of a text's content.
pub const MOST_OF_CONTENT: usize = 1024;

pub(crate) fn is_digit(byte: u8) -> bool
    ensures { result ≡ is_digit byte }
{
    matches!(byte, b'0'..=b'9')
}

fn is_letter(byte: u8) -> bool
    ensures { result ≡ is_letter byte }
{
    matches!(byte, b'a'..=b'z')
}

/// Each byte of a name stands at its own place, and a comma at every other place.
static NAME_BYTES: [u8; 256] = *b"\
    ,,,,,,,,,,,,,,,,,,,,,,,,,,,,,,,,\
    ,,,,,,,,,,,,,,,,0123456789,,,,,,\
    ,,,,,,,,,,,,,,,,,,,,,,,,,,,,,,,_\
    ,abcdefghijklmnopqrstuvwxyz,,,,,\
    ,,,,,,,,,,,,,,,,,,,,,,,,,,,,,,,,\
    ,,,,,,,,,,,,,,,,,,,,,,,,,,,,,,,,\
    ,,,,,,,,,,,,,,,,,,,,,,,,,,,,,,,,\
    ,,,,,,,,,,,,,,,,,,,,,,,,,,,,,,,,";

fn is_name_byte(byte: u8) -> bool
    ensures { result ≡ is_name_byte byte }
{
    NAME_BYTES[byte as usize] != b','
}

fn is_content_byte(byte: u8) -> bool
    ensures { result ≡ is_content_byte byte }
{
    (byte == b'\n') | ((byte >= b' ') & (byte != 127))
}

pub(crate) fn are_digits(b: &[u8]) -> bool
    ensures { result ≡ list_all is_digit b.now }
{
    b.iter().all(|byte| is_digit(*byte))
}

/// Where the bytes of a name end that go on at a place, byte by byte.
fn name_end(bytes: &[u8], from: usize) -> usize
    requires { from ≤ length bytes.now }
    ensures { result ≡ from + prefix_len is_name_byte (drop from bytes.now) }
{
    let mut end = from;
    while end < bytes.len() {
        if !is_name_byte(bytes[end]) {
            return end;
        }
        end += 1;
    }
    end
}

/// How many bytes at the front may stand in a name behind its first letter.
pub fn name_len(bytes: &[u8]) -> usize
    ensures value { result ≡ prefix_len is_name_byte bytes.now }
    ensures within { result ≤ length bytes.now }
{
    let mut len = 0;
    while bytes.len() - len >= LANES {
        let run = name_lanes(bytes, len);
        if run < LANES {
            return len + run;
        }
        len += LANES;
    }
    name_end(bytes, len)
}

fn are_name_bytes(b: &[u8]) -> bool
    ensures { result ≡ list_all is_name_byte b.now }
{
    name_len(b) == b.len()
}

/// Whether all are bytes of a content. None is passed over, so that many are looked at at once.
fn are_content_bytes(b: &[u8]) -> bool
    ensures { result ≡ list_all is_content_byte b.now }
{
    let mut all = true;
    for byte in b {
        all &= is_content_byte(*byte);
    }
    all
}

/// Whether bytes that may all stand in a name are one.
pub fn is_plain_name(b: &[u8]) -> bool
    requires { IsTrue (list_all is_name_byte b.now) }
    ensures { result ≡ is_name b.now }
{
    match b {
        [first, ..] => b.len() <= MOST_OF_NAME && is_letter(*first),
        [] => false,
    }
}

/// Whether the bytes are a name: a letter from a to z, then letters, digits and `_`, 64 bytes at most.
pub fn name_ok(b: &[u8]) -> bool
    ensures { result ≡ is_name b.now }
{
    match b {
        [first, rest @ ..] => b.len() <= MOST_OF_NAME && is_letter(*first) && are_name_bytes(rest),
        [] => false,
    }
}

/// Whether the bytes are the content of a text: line feeds and bytes from 32 on but 127, 1,024 bytes at most.
pub fn content_ok(b: &[u8]) -> bool
    ensures { result ≡ is_content b.now }
{
    b.len() <= MOST_OF_CONTENT && are_content_bytes(b)
}
