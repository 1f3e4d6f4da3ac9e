// Whether the names of a map are those of a map text.
ghost use Rattle.std.specs.Prelude.{◌<◌, ◌↔◌, IfSome, IsTrue};
ghost use Rattle.map_compose.specs.Fits.{IsShort, NamesFit};

use ppdb_base::MAX_FILE_BYTES;
use ppdb_maps::MapText;

/// Whether the VALUE of the `link` line is no longer than a map text.
fn link_fits(map: &MapText) -> bool
    ensures { IsTrue result ↔ IfSome map.now.link IsShort }
{
    match map.link() {
        None => true,
        Some(value) => value.len() <= MAX_FILE_BYTES,
    }
}

/// Whether the names of a line, and the number of lines before it, are those of a map text.
fn line_fits(index: u32, old: &[u8], new: &[u8]) -> bool
    ensures { IsTrue result ↔ ((index < MAX_FILE_BYTES) × IsShort old.now × IsShort new.now) }
{
    index < MAX_FILE_BYTES as u32 && old.len() <= MAX_FILE_BYTES && new.len() <= MAX_FILE_BYTES
}

/// Whether the names of a map are no more and no longer than the bytes of a map text. They are, of
/// each map that a text has.
pub fn names_fit(map: &MapText) -> bool
    ensures { IsTrue result ↔ NamesFit MAX_FILE_BYTES map.now }
{
    if !link_fits(map) {
        return false;
    }
    let mut index = 0;
    'lines: while let Some((old, new)) = map.document_line(index) {
        if !line_fits(index, old, new) {
            return false;
        }
        index += 1;
    }
    true
}
