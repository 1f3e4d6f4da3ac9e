// The text that is printed.
ghost use Rattle.std.specs.Prelude.{None};

use itoa::Buffer;
use ppdb_base::{Bytes, Sink, WriteError};
use std::alloc::Global;

/// The text so far. It is written at the end, all at once.
#[derive(Drop)]
pub struct Text {
    bytes: Bytes,
}

impl Text {
    /// No text.
    pub fn new(alloc: Global) -> Text {
        Text {
            bytes: Bytes::new(alloc),
        }
    }

    /// Lends the text.
    pub fn as_slice(&self) -> &[u8] {
        self.bytes.as_slice()
    }
}

impl Sink for Text {
    ghost written = { λ _. None };

    ghost faults = { λ _. 0 };

    fn put(&mut self, bytes: &[u8]) -> Result<(), WriteError> {
        Ok(self.bytes.append(bytes)?)
    }
}

/// Puts words and a decimal number.
pub fn put_number<O: Sink>(out: &mut O, words: &[u8], number: u32) -> Result<(), WriteError> {
    out.put(words)?;
    out.put(Buffer::new().format(number).as_bytes())
}

/// Puts words and a table's number, two lower-case hexadecimal digits.
pub fn put_table<O: Sink>(out: &mut O, words: &[u8], table: u8) -> Result<(), WriteError> {
    out.put(words)?;
    let mut digits = [0; 2];
    let _ = hex::encode_to_slice([table], &mut digits);
    out.put(&digits)
}
