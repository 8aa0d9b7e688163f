//! One line of a text after the other.
ghost use Rattle.std.specs.Prelude.{◌≡◌, ◌==◌, ◌<◌, length, position, option_map, IfSome};
ghost use Rattle.aw_spelling.specs.Spelling.{cut};
ghost use Rattle.aw_lex.specs.Lines.{first_line, lines_of, lines_from, passed_over};

use crate::front::is_blank;
use memchr::memchr;

/// Where the first line feed stands. It is sought among many bytes at once, but where it is the first byte, as in an empty line.
fn place_of_feed(text: &[u8]) -> Option<usize>
    ensures value { result ≡ position (λ b. b == 10) text.now }
    ensures within { IfSome result (λ at. at < length text.now) }
{
    if let [b'\n', ..] = text {
        return Some(0);
    }
    memchr(b'\n', text)
}

/// The bytes before the first line feed, and those behind it; `None` where there is no line feed.
fn cut_at_feed(text: &[u8]) -> Option<(&[u8], &[u8])>
    ensures value { option_map (λ x. (x.0.now, x.1.now)) result ≡ cut 10 text.now }
    ensures shorter { IfSome result (λ x. length x.1.now < length text.now) }
{
    let at = place_of_feed(text)?;
    let (line, behind) = text.split_at(at);
    let (_, rest) = behind.split_at(1);
    Some((line, rest))
}

/// The first line of a text, without its line feed, and the text behind it; `None` where nothing is left.
pub fn next_line(text: &[u8]) -> Option<(&[u8], &[u8])>
    ensures value { option_map (λ x. (x.0.now, x.1.now)) result ≡ first_line text.now }
    ensures lines { lines_of text.now ≡ lines_from (option_map (λ x. (x.0.now, x.1.now)) result) }
    ensures shorter { IfSome result (λ x. length x.1.now < length text.now) }
{
    if text.is_empty() {
        return None;
    }
    match cut_at_feed(text) {
        Some((line, rest)) => Some((line, rest)),
        None => Some(text.split_at(text.len())),
    }
}

/// Whether a line is passed over: blanks alone, or `%` as the first byte past the blanks.
pub fn is_passed_over(line: &[u8]) -> bool
    ensures { result ≡ passed_over line.now }
{
    for byte in line {
        if !is_blank(*byte) {
            return *byte == b'%';
        }
    }
    true
}
