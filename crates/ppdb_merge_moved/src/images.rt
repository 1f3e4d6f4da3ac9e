// What the image of a row says.
ghost use Rattle.std.specs.Prelude.{◌≡◌};
ghost use Rattle.ppdb_maps.specs.Map.{is_gone, row_image, is_gone_row, is_in_table, leaves_table};
ghost use Rattle.ppdb_merge_moved.specs.Moved.{moved_token, row_in, table_in};

use ppdb_maps::{MapText, RowImage};
use type_blobs::TypeToken;

/// Whether the row has no successor.
pub(crate) fn is_gone(image: RowImage) -> bool
    ensures { result ≡ is_gone image }
{
    match image {
        RowImage::Gone => true,
        RowImage::Row { .. } | RowImage::Missing => false,
    }
}

/// Whether a row of a table has no successor.
pub fn is_gone_row(map: &MapText, table: u8, row: u32) -> bool
    ensures { result ≡ is_gone_row map.now table row }
{
    is_gone(map.row_image(table, row))
}

/// Whether the image is a row of a table.
pub(crate) fn is_in_table(table: u8, image: RowImage) -> bool
    ensures { result ≡ is_in_table table image }
{
    match image {
        RowImage::Row { table: to, .. } => to == table,
        RowImage::Gone | RowImage::Missing => false,
    }
}

/// Whether the image is a row of another table.
pub fn leaves_table(table: u8, image: RowImage) -> bool
    ensures { result ≡ leaves_table table image }
{
    match image {
        RowImage::Row { table: to, .. } => to != table,
        RowImage::Gone | RowImage::Missing => false,
    }
}

/// The table of the image; 0 where there is none.
pub(crate) fn table_in(image: RowImage) -> u8
    ensures { result ≡ table_in image }
{
    match image {
        RowImage::Row { table, .. } => table,
        RowImage::Gone | RowImage::Missing => 0,
    }
}

/// The row of the image; 0 where there is none.
pub(crate) fn row_in(image: RowImage) -> u32
    ensures { result ≡ row_in image }
{
    match image {
        RowImage::Row { row, .. } => row,
        RowImage::Gone | RowImage::Missing => 0,
    }
}

/// A type, in whichever table its image is.
pub(crate) fn moved_type(map: &MapText, token: TypeToken) -> TypeToken
    ensures { result ≡ moved_token map.now token }
{
    let image = map.row_image(token.table, token.row);
    TypeToken {
        table: table_in(image),
        row: row_in(image),
    }
}
