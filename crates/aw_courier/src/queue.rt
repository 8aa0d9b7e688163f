//! Requests that wait in order.
ghost use Rattle.std.specs.Prelude.{◌≡◌, [], ◌∷◌, ◌++◌, OnOk};
ghost use Rattle.aw_courier.specs.Mails.{IsNextUp};

use aw_list::Text;
use std::alloc::{AllocError, Global};
use std::collections::VecDeque;
use std::marker::Model;

/// What is next in a queue.
#[derive(Drop)]
pub enum NextUp {
    /// The first request, taken out.
    Frame(Text),
    /// The first request is longer than the room for it, and stays.
    TooLong,
    /// No request waits.
    Nothing,
}

/// The requests that wait for one role, each in its bytes.
#[derive(Drop)]
pub struct Queue {
    frames: VecDeque<Text>,
}

impl Model for Queue {
    ghost use Rattle.std.specs.Prelude.{ℕ, List};

    ghost Value = { List (List ℕ) };

    ghost view = { λ q. q.frames.items };
}

impl Queue {
    /// Nothing waits. It takes no memory.
    pub(crate) fn new(alloc: Global) -> Queue
        ensures { result ≡ [] }
    {
        Queue {
            frames: VecDeque::new(alloc),
        }
    }

    /// Lets a request wait behind the others.
    pub(crate) fn push(&mut self, frame: Text) -> Result<(), AllocError>
        ensures { OnOk result (self.new ≡ self.old ++ frame ∷ []) }
    {
        self.frames.push_back(frame)?;
        Ok(())
    }

    /// Takes the first request out, if there is one and it has at most so many bytes.
    pub(crate) fn next_up(&mut self, room: usize) -> NextUp
        ensures { IsNextUp room self.old self.new result }
    {
        match self.frames.front() {
            None => return NextUp::Nothing,
            Some(frame) if frame.len() > room => return NextUp::TooLong,
            Some(_) => {}
        }
        match self.frames.pop_front() {
            Some(frame) => NextUp::Frame(frame),
            None => NextUp::Nothing,
        }
    }
}
