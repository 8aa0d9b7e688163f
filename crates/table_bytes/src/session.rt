//! What a reader of requests answers to a session that comes in pieces.
use crate::fields::push_frame;
use aw_list::Text;
use aw_msg::{Frame, FrameReader, Next};
use aw_spelling::push_number;
use std::alloc::{AllocError, Global};

/// Adds `after 38: `, the number of bytes that came.
fn push_place(told: &mut Text, word: &[u8], came: usize) -> Result<(), AllocError> {
    told.push_bytes(word)?;
    told.push_bytes(b" ")?;
    push_number(told, came as u64)?;
    told.push_bytes(b": ")
}

/// Adds why no request follows.
fn push_end(told: &mut Text, word: &[u8], came: usize, failed: bool) -> Result<(), AllocError> {
    push_place(told, word, came)?;
    told.push_bytes(if failed { b"bad\n" } else { b"need\n" })
}

/// What came next.
enum Came {
    Request,
    Nothing,
    Bad,
}

/// Adds a request.
fn push_request(told: &mut Text, frame: &Frame, came: usize) -> Result<Came, AllocError> {
    push_place(told, b"after", came)?;
    push_frame(told, frame)?;
    told.push_bytes(b"\n")?;
    Ok(Came::Request)
}

/// Adds the next request, if one is there.
fn push_next(told: &mut Text, reader: &mut FrameReader, came: usize) -> Result<Came, AllocError> {
    match reader.next()? {
        Next::Frame(frame) => {
            let pushed = push_request(told, &frame, came);
            drop(frame);
            pushed
        }
        Next::Need => Ok(Came::Nothing),
        Next::Bad => Ok(Came::Bad),
    }
}

/// Adds the requests that are there, and tells whether the next answer is `Bad`.
fn push_requests(
    told: &mut Text,
    reader: &mut FrameReader,
    came: usize,
) -> Result<bool, AllocError> {
    for _ in 0..=came {
        match push_next(told, reader, came)? {
            Came::Request => {}
            Came::Nothing => return Ok(false),
            Came::Bad => return Ok(true),
        }
    }
    Ok(false)
}

/// Adds what a reader answers to bytes that come in pieces of this size.
fn push_pieces(
    told: &mut Text,
    reader: &mut FrameReader,
    bytes: &[u8],
    size: usize,
) -> Result<(), AllocError> {
    let mut failed = false;
    let mut came = 0usize;
    for piece in bytes.chunks(size.max(1)) {
        reader.feed(piece)?;
        came = came.saturating_add(piece.len());
        let fails = push_requests(told, reader, came)?;
        if fails != failed {
            push_end(told, b"after", came, fails)?;
        }
        failed = fails;
    }
    push_end(told, b"end", came, failed)
}

/// Adds each request with the number of bytes that had come before it was told, where the answer became `Bad` (or `Need` again),
/// and the last answer.
pub fn push_session(
    alloc: Global,
    told: &mut Text,
    bytes: &[u8],
    size: usize,
) -> Result<(), AllocError> {
    let mut reader = FrameReader::new(alloc);
    push_pieces(told, &mut reader, bytes, size)
}
