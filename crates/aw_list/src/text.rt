//! Rows of bytes, of which the short ones take no memory.
ghost use Rattle.std.specs.Prelude.{◌≡◌, [], ◌∷◌, ◌++◌, ◌<◌, length, take, slice_set, ◌↔◌, IsTrue, IfOk, OnOk, OnErr};
ghost use Rattle.std.specs.Cmp.{partial_equiv_from_equiv};
ghost use Rattle.std.specs.Cmp.Rules.{comparing};
ghost use Rattle.std.specs.Cmp.Lexicographic.{pointwise, lists_equiv};
ghost use Rattle.std.proofs.Common.{rules};

use arrayvec::ArrayVec;
use std::alloc::{AllocError, Global};
use std::marker::Model;

/// Where the bytes of a text lie: in the value itself, or in memory of their own.
#[derive(Debug, Drop)]
enum Bytes {
    Short(ArrayVec<u8, 16>),
    Long(Vec<u8>),
}

/// Bytes: a name, a text's content, an input or an output. Up to 16 bytes, as most names have, stand in the value itself and take
/// no memory. Contracts see the list of the bytes.
#[derive(Debug, Drop)]
pub struct Text {
    alloc: Global,
    bytes: Bytes,
}

impl Model for Text {
    ghost use Rattle.std.specs.Prelude.{List, ℕ};
    ghost use Rattle.std.specs.Coded.{coded_list, coded_ℕ};
    ghost use Rattle.aw_list.specs.Texts.{bytes_in};

    ghost Value = { List ℕ };

    ghost coded = { coded_list coded_ℕ };

    ghost view = { λ t. bytes_in t.bytes };
}

/// A row of these bytes in memory of its own, and of more bytes behind them.
fn joined(alloc: Global, front: &[u8], more: &[u8]) -> Result<Vec<u8>, AllocError>
    ensures { IfOk result (λ joined. joined.items ≡ front.now ++ more.now) }
{
    let mut joined = Vec::with_capacity(alloc, LONG)?;
    joined.extend_from_slice(front)?;
    joined.extend_from_slice(more)?;
    Ok(joined)
}

/// So much memory a text takes first, if it takes any.
const LONG: usize = 64;

impl Text {
    /// No bytes. It takes no memory.
    pub fn new(alloc: Global) -> Text
        ensures { result ≡ [] }
    {
        Text {
            alloc,
            bytes: Bytes::Short(ArrayVec::new()),
        }
    }

    /// The same bytes, taken over with their memory.
    pub fn from_vec(bytes: Vec<u8>) -> Text
        ensures { result ≡ bytes.items }
    {
        Text {
            alloc: *bytes.allocator(),
            bytes: Bytes::Long(bytes),
        }
    }

    /// A text of these bytes.
    pub fn from_bytes(alloc: Global, bytes: &[u8]) -> Result<Text, AllocError>
        ensures { IfOk result (λ text. text ≡ bytes.now) }
    {
        let mut few = ArrayVec::new();
        let bytes = match few.try_extend_from_slice(bytes) {
            Ok(()) => Bytes::Short(few),
            Err(_) => Bytes::Long(bytes.to_vec(alloc)?),
        };
        Ok(Text { alloc, bytes })
    }

    /// The bytes, borrowed.
    pub fn as_slice(&self) -> &[u8]
        ensures { result.now ≡ self.now }
    {
        match &self.bytes {
            Bytes::Short(few) => few.as_slice(),
            Bytes::Long(many) => many.as_slice(),
        }
    }

    /// Where the bytes take their memory from.
    pub fn allocator(&self) -> Global {
        self.alloc
    }

    /// How many bytes there are.
    pub fn len(&self) -> usize
        ensures { result ≡ length self.now }
    {
        self.as_slice().len()
    }

    /// Whether there is no byte.
    pub fn is_empty(&self) -> bool
        ensures { IsTrue result ↔ (self.now ≡ []) }
    {
        self.as_slice().is_empty()
    }

    /// Keeps this many bytes at the front at most, and lets the others go. It takes no memory.
    pub fn truncate(&mut self, len: usize)
        ensures { self.new ≡ take len self.old }
    {
        match &mut self.bytes {
            Bytes::Short(few) => few.truncate(len),
            Bytes::Long(many) => many.truncate(len),
        }
    }

    /// Writes a byte in place of the one that stands at a place, from 0.
    pub fn set(&mut self, at: usize, byte: u8)
        requires { at < length self.old }
        ensures { self.new ≡ slice_set self.old at byte }
    {
        match &mut self.bytes {
            Bytes::Short(few) => few.as_mut_slice()[at] = byte,
            Bytes::Long(many) => many[at] = byte,
        }
    }

    /// Adds bytes at the end of those that stand in the value itself. An error changes nothing.
    fn push_short(&mut self, bytes: &[u8]) -> Result<(), AllocError>
        ensures ok { OnOk result (self.new ≡ self.old ++ bytes.now) }
        ensures err { OnErr result (self.new ≡ self.old) }
    {
        if let Bytes::Short(few) = &mut self.bytes
            && few.try_extend_from_slice(bytes).is_ok()
        {
            return Ok(());
        }
        let longer = joined(self.alloc, self.as_slice(), bytes)?;
        self.bytes = Bytes::Long(longer);
        Ok(())
    }

    /// Adds a byte at the end. An error changes nothing.
    pub fn push(&mut self, byte: u8) -> Result<(), AllocError>
        ensures ok { OnOk result (self.new ≡ self.old ++ byte ∷ []) }
        ensures err { OnErr result (self.new ≡ self.old) }
    {
        match &mut self.bytes {
            Bytes::Long(many) => match many.push(byte) {
                Ok(()) => Ok(()),
                Err(_) => Err(AllocError),
            },
            Bytes::Short(_) => self.push_short(&[byte]),
        }
    }

    /// Adds so many bytes at the end as are known where this is called, as those of a word in quotes. An error changes nothing.
    pub fn push_array<const N: usize>(&mut self, bytes: &[u8; N]) -> Result<(), AllocError>
        ensures ok { OnOk result (self.new ≡ self.old ++ bytes.now) }
        ensures err { OnErr result (self.new ≡ self.old) }
    {
        match &mut self.bytes {
            Bytes::Long(row) => row.extend_from_slice(bytes),
            Bytes::Short(_) => self.push_short(bytes),
        }
    }

    /// Adds the bytes at the end. An error changes nothing. A single byte, as marks and short numbers are, goes a shorter way.
    pub fn push_bytes(&mut self, bytes: &[u8]) -> Result<(), AllocError>
        ensures ok { OnOk result (self.new ≡ self.old ++ bytes.now) }
        ensures err { OnErr result (self.new ≡ self.old) }
    {
        match bytes {
            [byte] => self.push(*byte),
            _ => match &mut self.bytes {
                Bytes::Long(many) => many.extend_from_slice(bytes),
                Bytes::Short(_) => self.push_short(bytes),
            },
        }
    }
}

impl Clone for Text {
    ghost is_clone = { λ x y. y ≡ x };

    fn clone(&self) -> Result<Text, AllocError> {
        Text::from_bytes(self.allocator(), self.as_slice())
    }
}

impl PartialEq for Text {
    ghost eq = { pointwise ⟦<u8 as PartialEq>⟧.eq };

    ghost laws = { partial_equiv_from_equiv (lists_equiv (Prim.search (comparing, rules))) };

    fn eq(&self, other: &Text) -> bool {
        self.as_slice() == other.as_slice()
    }
}

impl Eq for Text {
    ghost laws = { lists_equiv (Prim.search (comparing, rules)) };
}

/// Whether two texts have the same bytes.
pub fn is_same_text(a: &Text, b: &Text) -> bool
    ensures { IsTrue result ↔ (a.now ≡ b.now) }
{
    a == b
}
