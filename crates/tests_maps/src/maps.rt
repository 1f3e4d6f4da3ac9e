// Maps of texts.
use ppdb_maps::{MapText, read_map};
use std::alloc::Global;
use std::test::Fail;

/// The map of a text.
pub fn read(alloc: Global, text: &[u8]) -> Result<MapText, Fail> {
    if text.len() > 134_217_728 {
        return Err(Fail::from("too long"));
    }
    match read_map(alloc, text) {
        Ok(map) => Ok(map),
        Err(_) => Err(Fail::from("refused")),
    }
}

/// The map of a text whose lines stand apart by `/`.
pub fn map_of(alloc: Global, lines: &str) -> Result<MapText, Fail> {
    read(alloc, lines.replace(alloc, "/", "\n")?.as_bytes())
}
