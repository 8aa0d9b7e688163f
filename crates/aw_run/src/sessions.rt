//! The lines of the sessions that were served.
ghost use Rattle.std.specs.Prelude.{◌≡◌, ◌+◌, ◌<◌, ◌^◌, ◌++◌, IfOk, OnOk, length};
ghost use Rattle.aw_run.specs.Serving.{how_name, session_line, session_lines};

use aw_list::Text;
use aw_session::{How, SessionLog};
use aw_spelling::push_number;
use std::alloc::{AllocError, Global};

/// How a session ended, in a word.
fn how_name(how: How) -> &'static [u8]
    ensures { result.now ≡ how_name how }
{
    match how {
        How::End => b"end",
        How::Cut => b"cut",
        How::Bad => b"bad",
        How::Long => b"long",
        How::Fault => b"fault",
    }
}

/// Adds the line of the session at a place, counted from 0.
fn push_session(text: &mut Text, at: usize, log: &SessionLog) -> Result<(), AllocError>
    requires { at < 2 ^ 32 }
    ensures { OnOk result (text.new ≡ text.old ++ session_line (at + 1) log.now) }
{
    text.push_bytes(b"session ")?;
    push_number(text, at as u64 + 1)?;
    text.push_bytes(b" frames ")?;
    push_number(text, log.frames)?;
    text.push_bytes(b" ")?;
    text.push_bytes(how_name(log.how))?;
    text.push_bytes(b"\n")
}

/// The lines of sessions, counted from 1.
pub fn session_lines(alloc: Global, logs: &[SessionLog]) -> Result<Text, AllocError>
    requires { length logs.now < 2 ^ 32 }
    ensures { IfOk result (λ text. text ≡ session_lines 1 logs.now) }
{
    let mut text = Text::new(alloc);
    for at in 0..logs.len() {
        push_session(&mut text, at, &logs[at])?;
    }
    Ok(text)
}
