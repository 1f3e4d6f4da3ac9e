// Values that many grammars allow.
ghost use Rattle.std.specs.Prelude.{◌≡◌};
ghost use Rattle.blob_grammar.specs.Allowed.{is_row};

/// Whether a table of so many rows has the row.
pub fn is_row(rows: u32, row: u32) -> bool
    ensures { result ≡ is_row rows row }
{
    1 <= row && row <= rows
}
