// The words of a call, each ended by a zero byte.
ghost use Rattle.std.specs.Prelude.{◌↔◌, IfOk, IsTrue};
ghost use Rattle.ppdb_run_words.specs.Words.{texts};
ghost use Rattle.ppdb_library.specs.Words.{AreWords, IsWhole};

use ppdb_base::Memory;
use std::alloc::Global;

/// Whether the last byte is a zero byte, if there is one.
pub(crate) fn is_whole(text: &str) -> bool
    ensures { IsTrue result ↔ IsWhole text.now }
{
    match text.as_bytes().last() {
        Some(last) => *last == 0,
        None => true,
    }
}

/// The words of a text.
pub(crate) fn split_words(alloc: Global, text: &str) -> Result<Vec<String>, Memory>
    requires { IsWhole text.now }
    ensures { IfOk result (λ words. AreWords text.now (texts words.items)) }
{
    let mut words = Vec::new(alloc);
    let mut rest = text;
    while let Some((word, others)) = rest.split_once('\0') {
        words.push(String::from_str(alloc, word)?)?;
        rest = others;
    }
    Ok(words)
}
