//! A text that is made before any of it is written, with a limit.
ghost use Rattle.std.specs.Prelude.{◌≡◌, ◌+◌, ◌<◌, ◌≤◌, ◌↔◌, [], length, OnOk, OnErr};
ghost use Rattle.aw_out.specs.Report.{Prints, printed};

use crate::error::PrintFault;
use aw_list::Text;
use std::alloc::Global;
use std::marker::Model;

/// The most bytes of an output.
pub const OUTPUT_LIMIT: usize = 67_108_864;

// The definitions cite it by name.
const _: () = prove!(OUTPUT_LIMIT == 67_108_864);

/// A text of at most so many bytes.
#[derive(Drop)]
pub struct Report {
    text: Text,
    limit: usize,
}

impl Model for Report {
    ghost use Rattle.std.specs.Prelude.{◌≤◌, length};
    ghost use Rattle.aw_out.specs.Report.{Bounded};

    ghost Value = { Bounded };

    ghost view = { λ r. record { text = r.text; limit = r.limit } };

    ghost invariant = { λ r. length r.text ≤ r.limit };
}

impl Report {
    /// An empty text, of at most `limit` bytes later. It takes no memory.
    pub fn new(alloc: Global, limit: usize) -> Report
        ensures { result ≡ record { text = []; limit = limit } }
    {
        Report {
            text: Text::new(alloc),
            limit,
        }
    }

    /// Adds the bytes at the end. An error changes nothing.
    pub fn push(&mut self, b: &[u8]) -> Result<(), PrintFault>
        ensures ok { OnOk result (self.new ≡ printed self.old b.now) }
        ensures err { OnErr result (self.new ≡ self.old) }
        ensures prints { Prints b.now self.old self.new result }
        ensures too_large { (result ≡ Err PrintFault.TooLarge) ↔ (self.old.limit < length self.old.text + length b.now) }
    {
        if self.limit - self.text.len() < b.len() {
            return Err(PrintFault::TooLarge);
        }
        self.text.push_bytes(b)?;
        Ok(())
    }

    /// The text so far.
    pub fn bytes(&self) -> &[u8]
        ensures text { result.now ≡ self.now.text }
        ensures within { length self.now.text ≤ self.now.limit }
    {
        self.text.as_slice()
    }

    /// The most bytes that the text may have.
    pub fn limit(&self) -> usize
        ensures { result ≡ self.now.limit }
    {
        self.limit
    }

    /// The text alone.
    pub fn into_text(self) -> Text
        ensures text { result ≡ self.text }
        ensures within { length result ≤ self.limit }
    {
        self.text
    }
}
