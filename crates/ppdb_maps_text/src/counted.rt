// A text that is counted on beyond the longest one that is kept.
ghost use Rattle.std.specs.Prelude.{◌≡◌, ℕ, ◌<◌, ◌≤◌, ◌↔◌, List, [], ◌∷◌, length, IsTrue, OnOk};
ghost use Rattle.std.specs.Fmt.{decimal};
ghost use Rattle.ppdb_base.specs.Escaped.{escaped};
ghost use Rattle.ppdb_maps_text.specs.Putting.{Puts};

use itoa::Buffer;
use ppdb_base::{Bytes, MAX_FILE_BYTES, Memory, SteadySink, put_escaped};
use std::alloc::Global;

/// A text and its length. Past 134217728 bytes the text is let go, and its length is counted on.
#[derive(Drop)]
pub struct Counted {
    text: Bytes,
    length: u64,
    alloc: Global,
}

impl Counted {
    /// The empty text. It takes no memory.
    pub fn new(alloc: Global) -> Counted
        ensures text { result.text ≡ [] }
        ensures length { result.length ≡ 0 }
    {
        Counted {
            text: Bytes::new(alloc),
            length: 0,
            alloc,
        }
    }

    /// How many bytes were put.
    pub fn len(&self) -> u64
        ensures { result ≡ self.now.length }
    {
        self.length
    }

    /// Whether the text is too long to be kept.
    pub fn is_past(&self) -> bool
        ensures past { IsTrue result ↔ (MAX_FILE_BYTES < self.now.length) }
        ensures fits { self.now.length ≤ 0xffffffffffffffff }
    {
        self.length > MAX_FILE_BYTES as u64
    }

    /// The text, where it is not too long.
    pub fn into_text(self) -> Bytes
        ensures { result ≡ self.text }
    {
        self.text
    }

    /// Puts bytes.
    pub fn put(&mut self, bytes: &[u8]) -> Result<(), Memory>
        ensures { OnOk result (Puts self.old self.new bytes.now) }
    {
        self.length = self.length.saturating_add(bytes.len() as u64);
        if self.length > MAX_FILE_BYTES as u64 {
            self.text = Bytes::new(self.alloc);
            return Ok(());
        }
        self.text.append(bytes)
    }

    /// Counts so many bytes more of a text that is too long to be kept.
    pub fn count_on(&mut self, bytes: u64)
        requires { MAX_FILE_BYTES < self.now.length }
        ensures { (text : List ℕ) → length text ≡ bytes → Puts self.old self.new text }
    {
        self.length = self.length.saturating_add(bytes);
    }

    /// Puts a space and a decimal number.
    pub fn put_number(&mut self, number: u32) -> Result<(), Memory>
        ensures { OnOk result (Puts self.old self.new (32 ∷ decimal number)) }
    {
        self.put(b" ")?;
        self.put(Buffer::new().format(number).as_bytes())
    }

    /// Puts a space and the spelling of bytes.
    pub fn put_spelled(&mut self, bytes: &[u8]) -> Result<(), Memory>
        ensures { OnOk result (Puts self.old self.new (32 ∷ escaped bytes.now)) }
    {
        let mut text = SteadySink::new(self.alloc);
        match put_escaped(&mut text, bytes) {
            Ok(()) => {}
            Err(_) => return Err(Memory),
        }
        self.put(&[b' '])?;
        self.put(text.as_slice())
    }
}

/// How many digits a decimal number has.
pub fn digits_of(number: u32) -> u64
    ensures digits { result ≡ length (decimal number) }
    ensures few { result ≤ 10 }
{
    Buffer::new().format(number).len() as u64
}
