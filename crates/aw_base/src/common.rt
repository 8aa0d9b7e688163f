//! How far two texts are the same, compared many bytes at a time, and where a part of a name ends.
ghost use Rattle.std.specs.Prelude.{◌≡◌, ◌≤◌, ◌+◌, true, length, take};

/// How many bytes are compared at once.
const BLOCK: usize = 64;

/// Whether the next block of two texts is the same.
fn is_same_block(a: &[u8], b: &[u8], at: usize) -> bool
    requires first { at + 64 ≤ length a.now }
    requires second { at + 64 ≤ length b.now }
    ensures { result ≡ true → take at a.now ≡ take at b.now → take (at + 64) a.now ≡ take (at + 64) b.now }
{
    a[at..at + BLOCK] == b[at..at + BLOCK]
}

/// How many bytes two texts have in common in whole blocks at the front.
fn common_blocks(a: &[u8], b: &[u8]) -> usize
    ensures first { result ≤ length a.now }
    ensures second { result ≤ length b.now }
    ensures same { take result a.now ≡ take result b.now }
{
    let most = a.len().min(b.len());
    let mut at = 0;
    while most - at >= BLOCK && is_same_block(a, b, at) {
        at += BLOCK;
    }
    at
}

/// How many bytes two texts have in common before the first that differs.
pub(crate) fn common_length(a: &[u8], b: &[u8]) -> usize
    ensures first { result ≤ length a.now }
    ensures second { result ≤ length b.now }
    ensures same { take result a.now ≡ take result b.now }
{
    let most = a.len().min(b.len());
    for i in common_blocks(a, b)..most {
        if a[i] != b[i] {
            return i;
        }
    }
    most
}

/// Where the part of a name that begins here ends: at the next slash, or with the text.
pub(crate) fn part_end(text: &[u8], from: usize) -> usize
    requires { from ≤ length text.now }
    ensures first { from ≤ result }
    ensures within { result ≤ length text.now }
{
    let mut end = from;
    while end < text.len() && text[end] != b'/' {
        end += 1;
    }
    end
}
