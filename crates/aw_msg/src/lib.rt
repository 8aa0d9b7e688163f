//! Messages between workspaces, requests to a workspace and replies to them, as bytes: each has one spelling.
#![tactic(auto)]

pub mod decoding;
pub mod equations;
pub mod frame;
pub mod frame_reader;
pub mod frame_reading;
pub mod law;
pub mod message;
pub mod pieces;
pub mod reading;
pub mod reply;
pub mod reply_writing;
pub mod writing;

pub use aw_codec::{MsgFault, decode_choice, encode_choice};
pub use decoding::{decode, messages_have_one_spelling};
pub use frame::Frame;
pub use frame_reader::{FrameReader, Next};
pub use law::frames_have_one_spelling;
pub use message::{Message, Messages, MsgKind, copy_message};
pub use pieces::{Frames, FramesRead, frames_are_those_of_the_bytes, frames_of};
pub use reply::Answered;
pub use reply_writing::reply_bytes;
pub use writing::encode;
