// Blobs that hold the indexes of other blobs.
ghost use Rattle.std.specs.Prelude.{◌≡◌, [], ◌∷◌, ◌++◌, map, List, ℕ, OnOk, IfOk};
ghost use Rattle.ppdb_build_heaps.specs.declared.heap.HeapKind.TheVariants.{Blobs};
ghost use Rattle.ppdb_base.specs.Told.{told};
ghost use Rattle.ppdb_build_heaps.specs.Items.{with_use, index_of, as_blob, shortest};
ghost use Rattle.ppdb_build_heaps.specs.Uses.{Piece, with_held, blobs_after, blob_bytes};
ghost use Rattle.ppdb_build_heaps.specs.Drafts.{IsDraft, piece_of};

use crate::heap::Heap;
use crate::number::put_shortest;
use ppdb_base::{Bytes, Memory};

/// A piece of a blob: bytes, or the index of the blob with this content, in its shortest form.
#[derive(Clone, Copy)]
pub enum BlobPiece<'a> {
    Octets(&'a [u8]),
    Index(&'a [u8]),
}

/// Notes the use of a blob whose index a draft holds next, and appends that index.
pub fn put_index(heap: &mut Heap, content: &[u8], draft: &mut Bytes) -> Result<(), Memory>
    requires { heap.old.kind ≡ Blobs }
    ensures items { OnOk result (heap.new ≡ record heap.old { items = with_use heap.old.items content.now }) }
    ensures bytes { OnOk result (draft.new ≡ draft.old ++ shortest (index_of as_blob heap.new.items content.now)) }
{
    let index = heap.use_item(content)?;
    put_shortest(index, draft)?;
    Ok(())
}

/// Appends a piece to a draft; the blob whose index it holds is noted before.
fn put_piece(heap: &mut Heap, piece: &BlobPiece<'_>, draft: &mut Bytes) -> Result<(), Memory>
    requires { heap.old.kind ≡ Blobs }
    ensures kind { OnOk result (heap.new.kind ≡ Blobs) }
    ensures draft { OnOk result ((before : List (List ℕ)) (pieces : List Piece) → IsDraft before pieces heap.old.items draft.old
        → IsDraft before (pieces ++ piece_of piece.now ∷ []) heap.new.items draft.new) }
{
    match *piece {
        BlobPiece::Octets(bytes) => draft.append(bytes)?,
        BlobPiece::Index(content) => put_index(heap, content, draft)?,
    }
    Ok(())
}

/// Notes the blobs whose indexes the pieces hold, and then the blob that the pieces make, and answers its index.
/// The draft may hold anything before, and serves for many blobs.
pub fn use_pieces(
    heap: &mut Heap,
    pieces: &[BlobPiece<'_>],
    draft: &mut Bytes,
) -> Result<u64, Memory>
    requires { heap.old.kind ≡ Blobs }
    ensures items { OnOk result (heap.new ≡ record heap.old { items = blobs_after heap.old.items (with_held (map piece_of pieces.now)) }) }
    ensures index { IfOk result (λ index. index ≡ told (index_of as_blob heap.new.items (blob_bytes heap.new.items (map piece_of pieces.now)))) }
{
    draft.clear();
    for piece in pieces {
        put_piece(heap, piece, draft)?;
    }
    let index = heap.use_item(draft.as_slice())?;
    Ok(index)
}
