// Names that are printed as they are.
ghost use Rattle.std.specs.Prelude.{◌≡◌, All, IsTrue, IfSome};
ghost use Rattle.std.specs.Bool.{OnTrue};
ghost use Rattle.ppdb_base.specs.Escaped.{escaped, is_plain};

/// The text of a name that is printed as it is.
pub(crate) fn plain_text(name: &[u8]) -> Option<&str>
    ensures { IfSome result (λ text. text.now ≡ escaped name.now) }
{
    if name.is_empty() || !are_plain(name) {
        return None;
    }
    match str::from_utf8(name) {
        Ok(text) => Some(text),
        Err(_) => None,
    }
}

/// Whether each byte is printed as it is.
fn are_plain(bytes: &[u8]) -> bool
    ensures { OnTrue result (All (λ byte. IsTrue (is_plain byte)) bytes.now) }
{
    bytes
        .iter()
        .all(|byte| byte.is_ascii_graphic() && *byte != b'\\')
}
