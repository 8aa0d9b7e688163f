//! Texts between quotes.
ghost use Rattle.std.specs.Prelude.{◌≡◌, ◌++◌, ◌+◌, ◌<◌, ◌≤◌, length, take, drop, flat_map, ℕ, List, Some, IsTrue, OnOk, OnErr, IfOk, IfSome, option_map, option_and_then, option_copied};
ghost use Rattle.std.specs.Io.{StartsWith};
ghost use Rattle.std.specs.List.{prefix_len};
ghost use Rattle.aw_spelling.specs.Spelling.{spelled, quoted, escaped, stands_for_itself, with_front, content_before_quote, text_behind_quote, unquoted, whole, is_content};
ghost use Rattle.aw_spelling.specs.Pieces.{run_len, text_from, IsShorter, IsNoLonger};

use crate::lanes::{LANES, plain_lanes};
use crate::name::MOST_OF_CONTENT;
use aw_list::Text;
use std::alloc::{AllocError, Global};

/// What stands at the front of the bytes behind an opening quote.
enum Piece<'a> {
    /// The closing quote, and the bytes behind it.
    Close(&'a [u8]),
    /// A byte of the content, and the bytes behind its spelling.
    Byte(u8, &'a [u8]),
    /// Bytes of the content that stand for themselves, and those behind them.
    Run(&'a [u8], &'a [u8]),
    Broken,
}

fn escaped(code: u8) -> Option<u8>
    ensures { result ≡ escaped code }
{
    match code {
        b'"' => Some(b'"'),
        b'\\' => Some(b'\\'),
        b'n' => Some(b'\n'),
        _ => None,
    }
}

/// An `x` stands at the place of each byte that stands for itself between quotes, and a comma at every other place.
static PLAIN_BYTES: [u8; 256] = *b"\
    ,,,,,,,,,,,,,,,,,,,,,,,,,,,,,,,,\
    xx,xxxxxxxxxxxxxxxxxxxxxxxxxxxxx\
    xxxxxxxxxxxxxxxxxxxxxxxxxxxx,xxx\
    xxxxxxxxxxxxxxxxxxxxxxxxxxxxxxx,\
    xxxxxxxxxxxxxxxxxxxxxxxxxxxxxxxx\
    xxxxxxxxxxxxxxxxxxxxxxxxxxxxxxxx\
    xxxxxxxxxxxxxxxxxxxxxxxxxxxxxxxx\
    xxxxxxxxxxxxxxxxxxxxxxxxxxxxxxxx";

fn stands_for_itself(byte: u8) -> bool
    ensures { result ≡ stands_for_itself byte }
{
    PLAIN_BYTES[byte as usize] != b','
}

/// Where the bytes that stand for themselves end that go on at a place, byte by byte.
fn run_end(bytes: &[u8], from: usize) -> usize
    requires { from ≤ length bytes.now }
    ensures { result ≡ from + prefix_len stands_for_itself (drop from bytes.now) }
{
    let mut end = from;
    while end < bytes.len() {
        if !stands_for_itself(bytes[end]) {
            return end;
        }
        end += 1;
    }
    end
}

/// How many bytes at the front stand for themselves.
fn run_len(bytes: &[u8]) -> usize
    ensures value { result ≡ run_len bytes.now }
    ensures within { result ≤ length bytes.now }
{
    let mut len = 0;
    while bytes.len() - len >= LANES {
        let run = plain_lanes(bytes, len);
        if run < LANES {
            return len + run;
        }
        len += LANES;
    }
    run_end(bytes, len)
}

fn escaped_piece<'a>(code: u8, rest: &'a [u8]) -> Piece<'a>
    ensures no_longer { IsNoLonger result (length rest.entry.now) }
    ensures value { text_from result ≡ option_and_then (λ e. option_map (with_front e) (content_before_quote rest.entry.now)) (escaped code) }
{
    match escaped(code) {
        Some(byte) => Piece::Byte(byte, rest),
        None => Piece::Broken,
    }
}

fn first_piece(bytes: &[u8]) -> Piece<'_>
    ensures value { content_before_quote bytes.now ≡ text_from result }
    ensures shorter { IsShorter result (length bytes.now) }
{
    match bytes {
        [b'"', rest @ ..] => Piece::Close(rest),
        [b'\\', code, rest @ ..] => escaped_piece(*code, rest),
        [byte, rest @ ..] if stands_for_itself(*byte) => Piece::Byte(*byte, rest),
        _ => Piece::Broken,
    }
}

/// The first piece, and as many bytes at once as stand for themselves, where these are two at least.
fn next_piece(bytes: &[u8]) -> Piece<'_>
    ensures value { content_before_quote bytes.now ≡ text_from result }
    ensures shorter { IsShorter result (length bytes.now) }
{
    if matches!(bytes, [b'"' | b'\\', ..]) {
        return first_piece(bytes);
    }
    let len = run_len(bytes);
    if len < 2 {
        return first_piece(bytes);
    }
    let (run, rest) = bytes.split_at(len);
    Piece::Run(run, rest)
}

fn content_if_last(content: Text, behind: &[u8]) -> Option<Text>
    ensures { result ≡ whole (content, behind.now) }
{
    if behind.is_empty() {
        Some(content)
    } else {
        None
    }
}

/// How long the content is that stands behind an opening quote, where all its bytes stand for themselves, as nearly every content's
/// do. `None` tells nothing.
fn plain_len(bytes: &[u8]) -> Option<usize>
    ensures text { IfSome result (λ len. text_behind_quote bytes.now ≡ Some (take len bytes.now, drop (len + 1) bytes.now)) }
    ensures within { IfSome result (λ len. len < length bytes.now) }
{
    let len = run_len(bytes);
    if len < bytes.len() && bytes[len] == b'"' && len <= MOST_OF_CONTENT {
        Some(len)
    } else {
        None
    }
}

/// Behind an opening quote: the bytes behind the closing one; `None` where no text stands there.
pub fn text_end(bytes: &[u8]) -> Option<&[u8]>
    ensures value { option_copied result ≡ option_map (λ text. text.1) (text_behind_quote bytes.now) }
    ensures shorter { IfSome result (λ rest. length rest.now < length bytes.now) }
{
    match plain_len(bytes) {
        Some(len) => Some(&bytes[len + 1..]),
        None => end_by_pieces(bytes),
    }
}

/// The same of any text, piece by piece.
fn end_by_pieces(bytes: &[u8]) -> Option<&[u8]>
    ensures value { option_copied result ≡ option_map (λ text. text.1) (text_behind_quote bytes.now) }
    ensures shorter { IfSome result (λ rest. length rest.now < length bytes.now) }
{
    let mut rest = bytes;
    let mut len = 0;
    while len <= MOST_OF_CONTENT {
        match next_piece(rest) {
            Piece::Close(behind) => return Some(behind),
            Piece::Byte(_, behind) => {
                len += 1;
                rest = behind;
            }
            Piece::Run(run, behind) => {
                len += run.len();
                rest = behind;
            }
            Piece::Broken => return None,
        }
    }
    None
}

/// Behind an opening quote: the content of the text, and the bytes behind the closing quote; `None` where no text stands there.
pub fn text_value(alloc: Global, bytes: &[u8]) -> Result<Option<(Text, &[u8])>, AllocError>
    ensures { IfOk result (λ found. option_map (λ text. (text.0, text.1.now)) found ≡ text_behind_quote bytes.now) }
{
    match plain_len(bytes) {
        Some(len) => {
            let content = Text::from_bytes(alloc, &bytes[..len])?;
            Ok(Some((content, &bytes[len + 1..])))
        }
        None => read_by_pieces(alloc, bytes),
    }
}

/// The same of any text, piece by piece.
fn read_by_pieces(alloc: Global, bytes: &[u8]) -> Result<Option<(Text, &[u8])>, AllocError>
    ensures { IfOk result (λ found. option_map (λ text. (text.0, text.1.now)) found ≡ text_behind_quote bytes.now) }
{
    let mut content = Text::new(alloc);
    let mut rest = bytes;
    while content.len() <= MOST_OF_CONTENT {
        match next_piece(rest) {
            Piece::Close(behind) => return Ok(Some((content, behind))),
            Piece::Byte(byte, behind) => {
                content.push(byte)?;
                rest = behind;
            }
            Piece::Run(run, behind) => {
                content.push_bytes(run)?;
                rest = behind;
            }
            Piece::Broken => return Ok(None),
        }
    }
    Ok(None)
}

/// The content behind an opening quote, where nothing follows the text.
fn read_whole(alloc: Global, bytes: &[u8]) -> Result<Option<Text>, AllocError>
    ensures { IfOk result (λ content. content ≡ option_and_then whole (text_behind_quote bytes.now)) }
{
    match text_value(alloc, bytes)? {
        Some((content, behind)) => Ok(content_if_last(content, behind)),
        None => Ok(None),
    }
}

/// The content of a text in quotes; `None` where the bytes are not one text.
pub fn content_value(alloc: Global, b: &[u8]) -> Result<Option<Text>, AllocError>
    ensures value { IfOk result (λ content. content ≡ unquoted b.now) }
    ensures content { IfOk result (λ content. IfSome content (λ c. IsTrue (is_content c))) }
{
    match b {
        [b'"', rest @ ..] => read_whole(alloc, rest),
        _ => Ok(None),
    }
}

fn push_spelled(text: &mut Text, byte: u8) -> Result<(), AllocError>
    ensures ok { OnOk result (text.new ≡ text.old ++ spelled byte) }
    ensures err { OnErr result (text.new ≡ text.old) }
{
    match byte {
        b'"' => text.push_bytes(b"\\\""),
        b'\\' => text.push_bytes(b"\\\\"),
        b'\n' => text.push_bytes(b"\\n"),
        _ => text.push_bytes(&[byte]),
    }
}

/// Adds a content as it is spelled between quotes. One of which all bytes stand for themselves is added at once.
fn add_spelled(text: &mut Text, content: &[u8]) -> Result<(), AllocError>
    ensures ok { OnOk result (text.new ≡ text.old ++ flat_map spelled content.now) }
    ensures err { OnErr result (StartsWith text.new text.old) }
{
    if run_len(content) == content.len() {
        return text.push_bytes(content);
    }
    add_by_bytes(text, content)
}

/// The same byte by byte.
fn add_by_bytes(text: &mut Text, content: &[u8]) -> Result<(), AllocError>
    ensures ok { OnOk result (text.new ≡ text.old ++ flat_map spelled content.now) }
    ensures err { OnErr result (StartsWith text.new text.old) }
{
    for byte in content {
        push_spelled(text, *byte)?;
    }
    Ok(())
}

fn add_quoted(text: &mut Text, content: &[u8]) -> Result<(), AllocError>
    ensures ok { OnOk result (text.new ≡ text.old ++ quoted content.now) }
    ensures err { OnErr result (StartsWith text.new text.old) }
{
    text.push(b'"')?;
    add_spelled(text, content)?;
    text.push(b'"')
}

/// Adds the text with this content, in quotes. An error changes nothing.
pub fn push_quoted(text: &mut Text, content: &[u8]) -> Result<(), AllocError>
    ensures ok { OnOk result (text.new ≡ text.old ++ quoted content.now) }
    ensures err { OnErr result (text.new ≡ text.old) }
{
    let before = text.len();
    match add_quoted(text, content) {
        Ok(()) => Ok(()),
        Err(failed) => {
            text.truncate(before);
            Err(failed)
        }
    }
}

/// A content that is printed in quotes is read again.
pub fn quoted_is_read()
    ensures { (content : List ℕ) → IsTrue (is_content content) → unquoted (quoted content) ≡ Some content }
{}
