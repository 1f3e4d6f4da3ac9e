// Texts of two maps that are too long to be kept, and are counted on. The lengths are those that
// another program counts, offset by offset and slot by slot.
use crate::maps::read;
use map_compose::{ComposeError, compose_maps};
use std::alloc::{AllocError, Global};
use std::test::Fail;

/// How many bytes the text of two maps would have, which is too long.
fn too_long(alloc: Global, first: &[u8], second: &[u8]) -> Result<u64, Fail> {
    let (first, second) = (read(alloc, first)?, read(alloc, second)?);
    match compose_maps(alloc, &first, &second) {
        Err(ComposeError::TooLong { bytes }) => Ok(bytes),
        _ => Err(Fail::from("another answer")),
    }
}

/// Lines that move so many methods to method 1, or to the methods 1 and 2 by turns.
fn moved_to(alloc: Global, images: u32, methods: u32) -> Result<Vec<u8>, AllocError> {
    let head = format!(in alloc; "ppdbmap 3\nrows 06 {images}\n")?;
    let mut text = Vec::from_slice(alloc, head.as_bytes())?;
    for before in 0..methods {
        let method = before.saturating_add(1);
        let image = if images == 1 { 1 } else { 2 - before % 2 };
        let line = format!(in alloc; "row 06 {method} {image}\n")?;
        text.extend_from_slice(line.as_bytes())?;
    }
    Ok(text)
}

/// The line of method 1, which has 3000 runs.
fn with_runs(alloc: Global) -> Result<Vec<u8>, AllocError> {
    let mut text = Vec::from_slice(alloc, b"ppdbmap 1\nmethod 1 9000 15009\n")?;
    for run in 0..3000u32 {
        let line = format!(in alloc; "run {} {} {}\n", 3 * run, 5 * run + 7, 1 + run % 2)?;
        text.extend_from_slice(line.as_bytes())?;
    }
    Ok(text)
}

// The last forty methods have lines of their own in the first map the second time.
#[test]
fn many_lines_are_counted(rt: HostRuntime) -> Result<(), Fail> {
    let mut first = moved_to(rt.alloc(), 1, 3000)?;
    let second = with_runs(rt.alloc())?;
    assert_eq!(rt; too_long(rt.alloc(), &first, &second)?, 145_338_806);
    for method in 2961..3001u32 {
        let line = if method % 2 == 0 {
            format!(in rt.alloc();
                "method {method} 1000010000 9000\nrun 999999500 0 4001\nrun 1000004600 4100 4900\n"
            )?
        } else {
            format!(in rt.alloc();
                "method {method} 9000 9000\nrun 0 20 2500\nrun 2600 2700 6300\n"
            )?
        };
        first.extend_from_slice(line.as_bytes())?;
    }
    assert_eq!(rt; too_long(rt.alloc(), &first, &second)?, 145_667_426);
    Ok(())
}

/// The slots of the methods 1 and 2: 3000 and 7.
fn with_slots(alloc: Global) -> Result<Vec<u8>, AllocError> {
    let mut text = Vec::from_slice(alloc, b"ppdbmap 3\nslots 1\n")?;
    for slot in 0..3000u32 {
        let line = format!(in alloc; "slot 1 {} {}\n", 5 * slot, 65535 - 9 * slot)?;
        text.extend_from_slice(line.as_bytes())?;
    }
    text.extend_from_slice(b"slots 2\n")?;
    for slot in 0..7u32 {
        let line = format!(in alloc; "slot 2 {} {}\n", 997 * slot, slot)?;
        text.extend_from_slice(line.as_bytes())?;
    }
    Ok(text)
}

// Every third of the last forty methods has slots of its own in the first map the second time.
#[test]
fn many_slots_are_counted(rt: HostRuntime) -> Result<(), Fail> {
    let mut first = moved_to(rt.alloc(), 2, 4400)?;
    let second = with_slots(rt.alloc())?;
    assert_eq!(rt; too_long(rt.alloc(), &first, &second)?, 139_012_521);
    for number in 0..13u32 {
        let method = 4361 + 3 * number;
        let line = format!(in rt.alloc();
            "slots {method}\nslot {method} 7 15\nslot {method} 9 16\n"
        )?;
        first.extend_from_slice(line.as_bytes())?;
    }
    assert_eq!(rt; too_long(rt.alloc(), &first, &second)?, 138_629_156);
    Ok(())
}
