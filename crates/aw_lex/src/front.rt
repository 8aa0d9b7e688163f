//! What stands at the front of the rest of a line.
ghost use Rattle.std.specs.Prelude.{◌≡◌, ◌≤◌, ◌+◌, IsTrue, false, length, option_map, take, drop};
ghost use Rattle.std.specs.List.{list_all, prefix_len};
ghost use Rattle.aw_lex.specs.Tokens.{is_blank, is_word_byte, begun_by, word_len, kind_of_word, front_of_word, front_of_text, front_of, Fits};
ghost use Rattle.aw_spelling.specs.Spelling.{is_name_byte, text_behind_quote};

use crate::token::TokenKind;
use aw_spelling::{is_node_name, is_number, is_plain_name, name_len, text_end};

/// What stands at the front of bytes.
#[derive(Clone, Copy, Debug)]
pub enum Front {
    /// A blank, which is one byte.
    Blank,
    /// A token, and how many bytes it has.
    Token(TokenKind, usize),
    /// Anything else, as a text without its end.
    Bad,
}

/// Whether a byte stands between tokens and is none: a space, a tab or a carriage return.
pub fn is_blank(byte: u8) -> bool
    ensures { result ≡ is_blank byte }
{
    matches!(byte, b' ' | b'\t' | b'\r')
}

/// What each byte may begin: `b` a blank, `m` a mark, `q` a text, `w` a word, and `-` nothing.
static FIRST_BYTES: [u8; 256] = *b"\
    ---------b---b------------------\
    b-qw----mm--m-wwwwwwwwwwwwmmmmm-\
    -------------------------------w\
    -wwwwwwwwwwwwwwwwwwwwwwwwwwm-m--\
    --------------------------------\
    --------------------------------\
    --------------------------------\
    --------------------------------";

fn begun_by(byte: u8) -> u8
    ensures { result ≡ begun_by byte }
{
    FIRST_BYTES[byte as usize]
}

/// Each byte of a word stands at its own place, and a comma at every other place.
static WORD_BYTES: [u8; 256] = *b"\
    ,,,,,,,,,,,,,,,,,,,,,,,,,,,,,,,,\
    ,,,#,,,,,,,,,,./0123456789,,,,,,\
    ,,,,,,,,,,,,,,,,,,,,,,,,,,,,,,,_\
    ,abcdefghijklmnopqrstuvwxyz,,,,,\
    ,,,,,,,,,,,,,,,,,,,,,,,,,,,,,,,,\
    ,,,,,,,,,,,,,,,,,,,,,,,,,,,,,,,,\
    ,,,,,,,,,,,,,,,,,,,,,,,,,,,,,,,,\
    ,,,,,,,,,,,,,,,,,,,,,,,,,,,,,,,,";

fn is_word_byte(byte: u8) -> bool
    ensures { result ≡ is_word_byte byte }
{
    WORD_BYTES[byte as usize] != b','
}

/// Where a word ends that goes on at a place.
fn word_end(bytes: &[u8], from: usize) -> usize
    requires { from ≤ length bytes.now }
    ensures value { result ≡ from + prefix_len is_word_byte (drop from bytes.now) }
    ensures after { from ≤ result }
    ensures within { result ≤ length bytes.now }
{
    let mut end = from;
    while end < bytes.len() {
        if !is_word_byte(bytes[end]) {
            return end;
        }
        end += 1;
    }
    end
}

/// The kind of a word whose bytes may all stand in a name.
fn kind_of_plain(word: &[u8]) -> Option<TokenKind>
    requires { IsTrue (list_all is_name_byte word.now) }
    ensures { result ≡ kind_of_word word.now }
{
    if is_plain_name(word) {
        Some(TokenKind::Name)
    } else if is_number(word) {
        Some(TokenKind::Number)
    } else {
        None
    }
}

/// The kind of a word with a byte that stands in no name.
fn kind_of_joined(word: &[u8]) -> Option<TokenKind>
    requires { list_all is_name_byte word.now ≡ false }
    ensures { result ≡ kind_of_word word.now }
{
    if is_node_name(word) {
        Some(TokenKind::Node)
    } else {
        None
    }
}

/// The kind of a word of which so many bytes at the front may stand in a name.
fn kind_of_word(word: &[u8], name: usize) -> Option<TokenKind>
    requires { name ≡ prefix_len is_name_byte word.now }
    ensures { result ≡ kind_of_word word.now }
{
    if name == word.len() {
        kind_of_plain(word)
    } else {
        kind_of_joined(word)
    }
}

fn word_front(bytes: &[u8]) -> Front
    ensures { result ≡ front_of_word (word_len bytes.now) (kind_of_word (take (word_len bytes.now) bytes.now)) }
{
    let name = name_len(bytes);
    let len = word_end(bytes, name);
    let (word, _) = bytes.split_at(len);
    match kind_of_word(word, name) {
        Some(kind) => Front::Token(kind, len),
        None => Front::Bad,
    }
}

fn text_front(bytes: &[u8]) -> Front
    ensures { result ≡ front_of_text bytes.now (option_map (λ text. text.1) (text_behind_quote bytes.now)) }
{
    match text_end(bytes) {
        Some(rest) => Front::Token(TokenKind::Text, 1 + (bytes.len() - rest.len())),
        None => Front::Bad,
    }
}

#[inline(always)]
fn read_front(bytes: &[u8]) -> Front
    ensures { result ≡ front_of bytes.now }
{
    match bytes {
        [] => Front::Blank,
        [first, rest @ ..] => match begun_by(*first) {
            b'b' => Front::Blank,
            b'm' => Front::Token(TokenKind::Mark(*first), 1),
            b'q' => text_front(rest),
            b'w' => word_front(bytes),
            _ => Front::Bad,
        },
    }
}

/// What stands at the front of the bytes, of which there is one at least. The loop over a line's tokens is spared a call for each.
#[inline(always)]
pub fn front_of(bytes: &[u8]) -> Front
    ensures value { result ≡ front_of bytes.now }
    ensures fits { Fits result (length bytes.now) }
{
    read_front(bytes)
}
