//! What stands at the front of what is left of a line: names, numbers, texts and marks, and the blanks before them.
ghost use Rattle.std.specs.Prelude.{◌≡◌, ◌∷◌, [], true, false, IfOk, IfSome};
ghost use Rattle.aw_lex.specs.Tokens.{is_word_byte};
ghost use Rattle.aw_term_reader.specs.Lexemes.{Name, Number, Quoted};
ghost use Rattle.aw_sched.specs.ByteArguments.{EndsWord, SaysBefore};

use aw_base::Text;
use aw_lex::front::is_blank;
use aw_spelling::{is_plain_name, name_len, number_value, text_value};
use aw_term_reader::Unread;
use std::alloc::Global;

/// What is left behind the blanks at the front. Most bytes are past the space, and are no blanks.
pub(crate) fn behind_blanks(bytes: &[u8]) -> &[u8]
    ensures { SaysBefore bytes.entry.now [] result.now }
{
    let mut rest = bytes;
    while let [first, behind @ ..] = rest {
        if *first <= b' ' && is_blank(*first) {
            rest = behind;
        } else {
            return rest;
        }
    }
    rest
}

/// Whether a word ends before this byte, which may stand behind a name or a number in a choice.
fn ends_word(byte: u8) -> bool
    ensures { result ≡ true → is_word_byte byte ≡ false }
{
    matches!(
        byte,
        b' ' | b'(' | b')' | b',' | b'{' | b'}' | b'\t' | b'\r'
    )
}

/// Whether no word goes on in what is left.
fn is_at_end(bytes: &[u8]) -> bool
    ensures { result ≡ true → EndsWord bytes.now }
{
    match bytes {
        [byte, ..] => ends_word(*byte),
        [] => true,
    }
}

/// The name at the front, and what is left behind it.
pub(crate) fn name_front(bytes: &[u8]) -> Option<(&[u8], &[u8])>
    ensures { IfSome result (λ x. SaysBefore bytes.entry.now (Name x.0.now ∷ []) x.1.now) }
{
    let (word, rest) = bytes.split_at(name_len(bytes));
    if is_plain_name(word) && is_at_end(rest) {
        Some((word, rest))
    } else {
        None
    }
}

/// The number at the front, and what is left behind it.
pub(crate) fn number_front(bytes: &[u8]) -> Option<(u64, &[u8])>
    ensures { IfSome result (λ x. SaysBefore bytes.entry.now (Number x.0 ∷ []) x.1.now) }
{
    let (word, rest) = bytes.split_at(name_len(bytes));
    if is_at_end(rest) {
        Some((number_value(word)?, rest))
    } else {
        None
    }
}

/// The content of the text whose opening quote stands before these bytes, and what is left behind it.
pub(crate) fn text_front(alloc: Global, bytes: &[u8]) -> Result<(Text, &[u8]), Unread>
    ensures { IfOk result (λ x. SaysBefore (34 ∷ bytes.entry.now) (Quoted x.0 ∷ []) x.1.now) }
{
    match text_value(alloc, bytes)? {
        Some(found) => Ok(found),
        None => Err(Unread::Form),
    }
}
