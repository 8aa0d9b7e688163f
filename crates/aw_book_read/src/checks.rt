//! How files of journals stand, a line for each.
ghost use Rattle.std.specs.Prelude.{◌≡◌, ◌++◌, decimal, map, OnOk};
ghost use Rattle.aw_book_read.specs.Checks.{check_line, counts_text, digest_text, name_text, shown_byte, standing_word};

use aw_journal::Standing;
use aw_list::Text;
use aw_spelling::push_number;
use std::alloc::AllocError;

/// What is said of the file of a journal.
#[derive(Clone, Copy, Debug, PartialEq, Eq)]
pub struct Checked {
    pub standing: Standing,
    /// How many events count.
    pub events: u64,
    /// How many bytes stand before the last gate.
    pub bytes: u64,
    /// How many bytes stand behind it.
    pub behind: u64,
    /// The SHA-256 digest of the bytes before the last gate, where it was asked for.
    pub digest: Option<[u8; 32]>,
}

/// Adds how a file stands, in one word.
fn push_standing(text: &mut Text, standing: Standing) -> Result<(), AllocError>
    ensures { OnOk result (text.new ≡ text.old ++ standing_word standing) }
{
    match standing {
        Standing::Empty => text.push_array(b"empty"),
        Standing::Headless => text.push_array(b"headless"),
        Standing::Sound => text.push_array(b"sound"),
        Standing::Cut => text.push_array(b"cut"),
        Standing::Damaged => text.push_array(b"damaged"),
    }
}

/// Adds a number behind a word.
fn push_count(text: &mut Text, word: &[u8], count: u64) -> Result<(), AllocError>
    ensures { OnOk result (text.new ≡ text.old ++ (word.now ++ decimal count)) }
{
    text.push_bytes(word)?;
    push_number(text, count)
}

/// Adds a digest, where there is one, as ` digest 6b86..`.
fn push_digest(text: &mut Text, digest: Option<[u8; 32]>) -> Result<(), AllocError>
    ensures { OnOk result (text.new ≡ text.old ++ digest_text digest) }
{
    match digest {
        None => Ok(()),
        Some(digest) => {
            text.push_array(b" digest ")?;
            let mut digits = [0u8; 64];
            hex::encode_to_slice(&digest, &mut digits).map_err(|_| AllocError)?;
            text.push_bytes(&digits)
        }
    }
}

/// What is shown of a byte of a name: `?` in place of what a terminal would act on.
fn shown(byte: u8) -> u8
    ensures { result ≡ shown_byte byte }
{
    if byte < 32 || byte == 127 { b'?' } else { byte }
}

/// Adds the name of a file, without what a terminal would act on.
fn push_shown(text: &mut Text, name: &[u8]) -> Result<(), AllocError>
    ensures { OnOk result (text.new ≡ text.old ++ map shown_byte name.now) }
{
    'bytes: for byte in name {
        text.push(shown(*byte))?;
    }
    Ok(())
}

/// Adds how many events a file has, how many bytes stand before its last gate, and how many behind it.
fn push_counts(text: &mut Text, checked: &Checked) -> Result<(), AllocError>
    ensures { OnOk result (text.new ≡ text.old ++ counts_text checked.now) }
{
    push_count(text, b" events ", checked.events)?;
    push_count(text, b" bytes ", checked.bytes)?;
    push_count(text, b" behind ", checked.behind)
}

/// Adds a blank, the name of a file and a line feed.
fn push_name(text: &mut Text, name: &[u8]) -> Result<(), AllocError>
    ensures { OnOk result (text.new ≡ text.old ++ name_text name.now) }
{
    text.push_array(b" ")?;
    push_shown(text, name)?;
    text.push(b'\n')
}

/// Adds the line of a file, as `sound lab events 60000 bytes 3560297 behind 0 lab.journal`. An error may leave a part of it.
pub fn push_check(
    text: &mut Text,
    checked: &Checked,
    role: &[u8],
    name: &[u8],
) -> Result<(), AllocError>
    ensures { OnOk result (text.new ≡ text.old ++ check_line checked.now role.now name.now) }
{
    push_standing(text, checked.standing)?;
    text.push_array(b" ")?;
    text.push_bytes(role)?;
    push_counts(text, checked)?;
    push_digest(text, checked.digest)?;
    push_name(text, name)
}
