// A name's cursor as one of the cursors of blobs.

use crate::name::NameCursor;
use blob_grammar::BlobCursor;
use ppdb_base::BlobFault;

impl<'a> BlobCursor for NameCursor<'a> {
    ghost use Rattle.std.specs.Prelude.{List, ℕ};

    type Item = &'a [u8];

    ghost Seen = { List ℕ };

    ghost seen = { λ part. part.now };

    ghost left = { λ c. c.left };

    ghost Kept = { List ℕ };

    ghost kept = { λ c. c.separator };

    fn next_item(&mut self) -> Result<Option<&'a [u8]>, BlobFault> {
        self.next()
    }
}
