// What the bytes of three worked files hold.
ghost use Rattle.ppdb_verify.specs.WorkedBytes.{WorkedBytes};

/// The bytes of three worked files, with which the tests of all crates work, are read as the files
/// whose values and meanings are stated in `ppdb_values`.
pub fn worked_bytes_are_read()
    ensures { WorkedBytes }
{}
