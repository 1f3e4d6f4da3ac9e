// A line as text.
ghost use Rattle.std.specs.Prelude.{◌++◌};
ghost use Rattle.ppdb_base.specs.Written.{PutsInto};
ghost use Rattle.ppdb_show_lines.specs.Keeping.{Keeps};
ghost use Rattle.ppdb_show_lines.specs.Lines.{content_text, field_text, text_of};
ghost use Rattle.ppdb_show_lines.specs.Views.{content_of, field_of, line_of, fields_text};

use crate::item::put_item;
use crate::kept::Kept;
use crate::line::{Item, Part};
use ppdb_base::{Sink, WriteError};

/// Puts a line as text. Its words and numbers are kept and put together.
#[tactic(auto, unfolding(crate::specs::Lines::text_of))]
pub fn put_text_line<O: Sink>(out: &mut O, word: &str, parts: &[Part<'_>]) -> Result<(), WriteError>
    ensures { PutsInto O.written O.faults result out.old out.new (text_of (line_of word.now parts.now)) }
{
    let mut kept = Kept::new();
    kept.put(out, word.as_bytes())?;
    put_parts(&mut kept, out, parts)?;
    kept.put(out, b"\n")?;
    kept.flush(out)
}

fn put_parts<O: Sink>(kept: &mut Kept, out: &mut O, parts: &[Part<'_>]) -> Result<(), WriteError>
    ensures { Keeps result (O.written out.old) (O.written out.new) kept.old kept.new (O.faults out.old) (O.faults out.new) (fields_text parts.now) }
{
    for part in parts {
        put_part(kept, out, part)?;
    }
    Ok(())
}

#[inline(always)]
fn put_part<O: Sink>(kept: &mut Kept, out: &mut O, part: &Part<'_>) -> Result<(), WriteError>
    ensures { Keeps result (O.written out.old) (O.written out.new) kept.old kept.new (O.faults out.old) (O.faults out.new) (field_text (field_of part.now)) }
{
    match part {
        Part::Field(words, _, item) => put_field(kept, out, words, item),
        Part::Mark(words) => kept.put(out, words.as_bytes()),
    }
}

#[inline(always)]
fn put_field<O: Sink>(
    kept: &mut Kept,
    out: &mut O,
    words: &str,
    item: &Item<'_>,
) -> Result<(), WriteError>
    ensures { Keeps result (O.written out.old) (O.written out.new) kept.old kept.new (O.faults out.old) (O.faults out.new)
        (words.now ++ content_text (content_of item.now)) }
{
    kept.put(out, words.as_bytes())?;
    match *item {
        Item::Number(number) => kept.put_number(out, number),
        _ => put_behind(kept, out, item),
    }
}

/// Puts what is kept, and what a field holds after it.
#[inline(never)]
fn put_behind<O: Sink>(kept: &mut Kept, out: &mut O, item: &Item<'_>) -> Result<(), WriteError>
    ensures { Keeps result (O.written out.old) (O.written out.new) kept.old kept.new (O.faults out.old) (O.faults out.new) (content_text (content_of item.now)) }
{
    kept.flush(out)?;
    put_item(out, item)
}
