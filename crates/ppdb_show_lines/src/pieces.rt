// Pieces of lines of text.
ghost use Rattle.std.specs.Prelude.{◌++◌};
ghost use Rattle.ppdb_base.specs.Written.{PutsInto};
ghost use Rattle.ppdb_show_lines.specs.Pieces.{numbered, signed, tabled};

use crate::values::put_table;
use itoa::Buffer;
use ppdb_base::{Sink, WriteError};

/// Puts words, and more after them.
pub fn put_pair<O: Sink>(out: &mut O, words: &[u8], value: &[u8]) -> Result<(), WriteError>
    ensures { PutsInto O.written O.faults result out.old out.new (words.now ++ value.now) }
{
    out.put(words)?;
    out.put(value)
}

/// Puts words and a decimal number.
#[tactic(auto, unfolding(crate::specs::Pieces::numbered))]
pub fn put_numbered<O: Sink>(out: &mut O, words: &[u8], number: u32) -> Result<(), WriteError>
    ensures { PutsInto O.written O.faults result out.old out.new (numbered words.now number) }
{
    put_pair(out, words, Buffer::new().format(number).as_bytes())
}

/// Puts words and a decimal number of up to 64 bits.
#[tactic(auto, unfolding(crate::specs::Pieces::numbered))]
pub fn put_numbered64<O: Sink>(out: &mut O, words: &[u8], number: u64) -> Result<(), WriteError>
    ensures { PutsInto O.written O.faults result out.old out.new (numbered words.now number) }
{
    put_pair(out, words, Buffer::new().format(number).as_bytes())
}

/// Puts words and a signed decimal number.
#[tactic(auto, unfolding(crate::specs::Pieces::signed))]
pub fn put_signed<O: Sink>(out: &mut O, words: &[u8], number: i64) -> Result<(), WriteError>
    ensures { PutsInto O.written O.faults result out.old out.new (signed words.now number) }
{
    put_pair(out, words, Buffer::new().format(number).as_bytes())
}

/// Puts words and the number of a table in two hexadecimal digits.
#[tactic(auto, unfolding(crate::specs::Pieces::tabled))]
pub fn put_tabled<O: Sink>(out: &mut O, words: &[u8], table: u8) -> Result<(), WriteError>
    ensures { PutsInto O.written O.faults result out.old out.new (tabled words.now table) }
{
    out.put(words)?;
    put_table(out, table)
}
