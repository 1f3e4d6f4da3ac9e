// IL offsets that a map does not know, and offsets of async records that it does not keep.
ghost use Rattle.std.specs.Prelude.{◌≡◌, slice_get};
ghost use Rattle.ppdb_values.specs.Value.{value_of};
ghost use Rattle.ppdb_verify.specs.Views.{raw_file};
ghost use Rattle.ppdb_merge_fits.specs.Offsets.{beyond, lost};

use crate::offsets::{Below, Kept};
use crate::points::{first_point_beyond, first_range_beyond};
use crate::records::first_of_records;
use ppdb_base::{MergeError, Steps};
use ppdb_maps::MapText;
use ppdb_verify::Verified;
use std::alloc::Global;
use std::sync::ledger::Ledger;

/// What is reported first of the offsets that are not below the old sizes of their methods.
pub(crate) fn first_beyond<L: Ledger>(
    alloc: Global,
    file: &Verified<'_>,
    map: &MapText,
    steps: &mut Steps<L>,
) -> Option<MergeError>
    ensures { result ≡ slice_get (beyond map.now (value_of (raw_file file.now))) 0 }
{
    if let Some(error) = first_point_beyond(file, map, steps) {
        return Some(error);
    }
    if let Some(error) = first_range_beyond(file, map, steps) {
        return Some(error);
    }
    first_of_records(alloc, file, map, &Below { map }, steps)
}

/// What is reported first of the offsets of async records that are not kept.
pub(crate) fn first_lost<L: Ledger>(
    alloc: Global,
    file: &Verified<'_>,
    map: &MapText,
    steps: &mut Steps<L>,
) -> Option<MergeError>
    ensures { result ≡ slice_get (lost map.now (value_of (raw_file file.now))) 0 }
{
    first_of_records(alloc, file, map, &Kept { map }, steps)
}
