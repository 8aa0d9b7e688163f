//! Numbers and bytes as the entries of tables write them.
use crate::fault::TableFault;
use aw_list::Text;
use aw_net::Numbers;
use aw_out::Texts;
use aw_spelling::number_value;
use bstr::ByteSlice;
use hex::FromHexError;
use std::alloc::Global;

/// What stands between two sessions.
const NEXT: &[u8] = b"--\n";

/// The bytes that are written in hexadecimal, with blanks anywhere.
pub fn bytes_of(alloc: Global, text: &[u8]) -> Result<Text, TableFault> {
    let digits: Vec<u8> = text
        .iter()
        .copied()
        .filter(|byte| !byte.is_ascii_whitespace())
        .collect(alloc)?;
    match hex::decode(alloc, digits.as_slice()) {
        Ok(bytes) => Ok(Text::from_vec(bytes)),
        Err(FromHexError::OutOfMemory) => Err(TableFault::NoMemory),
        Err(_) => Err(TableFault::Unreadable),
    }
}

/// The numbers that are written with blanks between them.
pub fn numbers_of(alloc: Global, text: &[u8]) -> Result<Vec<usize>, TableFault> {
    let mut numbers = Vec::new(alloc);
    for word in text.split_str(b" ") {
        match number_value(word) {
            Some(number) => numbers.push(number as usize)?,
            None => return Err(TableFault::Unreadable),
        }
    }
    Ok(numbers)
}

/// The bytes of each session.
pub fn sessions_of(alloc: Global, text: &[u8]) -> Result<Texts, TableFault> {
    let mut sessions = Vec::new(alloc);
    for session in text.split_str(NEXT) {
        sessions.push(bytes_of(alloc, session)?)?;
    }
    Ok(Texts::from_vec(sessions))
}

/// The numbers of the calls that fail.
pub fn failing_of(alloc: Global, numbers: &[usize]) -> Result<Numbers, TableFault> {
    let mut failing = Numbers::new(alloc);
    for number in numbers {
        failing.push(*number)?;
    }
    Ok(failing)
}
