// Lines of each kind, and a text that is read again.
use crate::maps::read;
use ppdb_base::{Memory, OffsetImage, Run};
use ppdb_maps_text::Counted;
use std::test::Fail;

/// Puts lines of each kind, with numbers at their bounds.
fn put_all(text: &mut Counted) -> Result<(), Memory> {
    text.put_head(4)?;
    text.put_link(b"a b")?;
    text.put_rows(0x00, 0)?;
    text.put_rows(0x06, 16777215)?;
    text.put_row(0x06, 1, 16777215)?;
    text.put_row(0x06, 16777215, 1)?;
    text.put_rows(0x0a, 7)?;
    text.put_rows(0x2c, 10)?;
    text.put_drop(2)?;
    text.put_slots(1)?;
    text.put_slot(1, 0, 65535)?;
    text.put_slots(3)?;
    text.put_signature(1, 16777215)?;
    text.put_signature(16777215, 0)?;
    text.put_document(b"", b"/~")?;
    text.put_document(b"\xff", b"\\x y")?;
    text.put_method(1, 2147483647, 12)?;
    text.put_run(&Run {
        old: 0,
        new: 0,
        length: 9,
    })?;
    text.put_run(&Run {
        old: 2147483646,
        new: 11,
        length: 1,
    })?;
    text.put_method(4, 0, 0)
}

const LINES: &str = "ppdbmap 4
link a\\x20b
rows 00 0
rows 06 16777215
row 06 1 16777215
row 06 16777215 1
rows 0a 7
rows 2c 10
drop 2
slots 1
slot 1 0 65535
slots 3
signature 1 16777215
signature 16777215 0
document \\- /~
document \\xff \\x5cx\\x20y
method 1 2147483647 12
run 0 0 9
run 2147483646 11 1
method 4 0 0
";

#[test]
fn lines_are_spelled(rt: HostRuntime) -> Result<(), Fail> {
    let mut text = Counted::new(rt.alloc());
    if put_all(&mut text).is_err() {
        return Err(Fail::from("no memory"));
    }
    assert!(rt; text.len() == LINES.len() as u64);
    let bytes = text.into_text();
    assert!(rt; bytes.as_slice() == LINES.as_bytes());
    let map = read(rt.alloc(), bytes.as_slice())?;
    assert!(rt; map.row(0x06, 16777215) == Some(1));
    assert!(rt; map.slot(1, 0) == Some(65535));
    assert!(rt; map.signature(1) == Some(16777215));
    assert!(rt; map.moved_name(b"\xff") == b"\\x y".as_slice());
    assert!(rt; map.method(1).image(2147483646) == Some(11));
    Ok(())
}

#[test]
fn a_text_that_is_too_long_is_counted_on(rt: HostRuntime) -> Result<(), Fail> {
    let mut text = Counted::new(rt.alloc());
    let piece = [120; 4096];
    for _ in 0..32769 {
        if text.put(&piece).is_err() {
            return Err(Fail::from("no memory"));
        }
    }
    assert!(rt; text.len() == 134_221_824);
    assert!(rt; text.into_text().is_empty());
    Ok(())
}
