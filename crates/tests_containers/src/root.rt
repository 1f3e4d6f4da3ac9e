// The streams of a root.
use metadata_root::{Root, StreamKind, read_root};
use std::process::Abort;
use worked_files::SMALL;

/// Fails where the streams of a root are not those of the small file.
fn has_streams(rt: &impl Abort, root: &Root<'_>) {
    for (kind, place) in [
        (StreamKind::Pdb, Some(112)),
        (StreamKind::Tables, Some(148)),
        (StreamKind::UserStrings, None),
    ] {
        assert!(rt; root.place(kind) == place);
    }
    let texts = [0, 0x78, 0, 0x79, 0, 0, 0, 0];
    for (kind, stream) in [
        (StreamKind::Strings, Some(texts.as_slice())),
        (StreamKind::Guids, Some([].as_slice())),
        (StreamKind::UserStrings, None),
    ] {
        assert!(rt; root.stream(kind) == stream);
    }
}

#[test]
fn lists_the_streams(rt: HostRuntime) {
    let root = read_root(&SMALL);
    assert!(rt; root.is_ok());
    if let Ok(root) = root {
        has_streams(&rt, &root);
    }
}
