// The cursors of imports and of constants as two of the cursors of blobs.

use crate::constant::ConstantCursor;
use crate::import::{Import, ImportCursor};
use crate::types::Modifier;
use blob_grammar::BlobCursor;
use ppdb_base::BlobFault;

impl<'a> BlobCursor for ImportCursor<'a> {
    ghost use Rattle.type_blobs.specs.Imports.{ImportItem};
    ghost use Rattle.type_blobs.specs.ImportReading.{shown};

    type Item = Import<'a>;

    ghost Seen = { ImportItem };

    ghost seen = { shown };

    ghost left = { λ c. c };

    ghost Kept = { Unit {0} };

    ghost kept = { λ c. tt };

    fn next_item(&mut self) -> Result<Option<Import<'a>>, BlobFault> {
        self.next()
    }
}

/// Its items are the modifiers.
impl<'a> BlobCursor for ConstantCursor<'a> {
    ghost use Rattle.type_blobs.specs.declared.types.Modifier.{Modifier};
    ghost use Rattle.type_blobs.specs.ConstantReading.{ConstantEnd, modifier_fault};

    type Item = Modifier;

    ghost Seen = { Modifier };

    ghost seen = { λ modifier. modifier };

    ghost left = { λ c. record { items = c.modifiers; fault = modifier_fault c.end } };

    ghost Kept = { ConstantEnd };

    ghost kept = { λ c. c.end };

    fn next_item(&mut self) -> Result<Option<Modifier>, BlobFault> {
        self.next_modifier()
    }
}
