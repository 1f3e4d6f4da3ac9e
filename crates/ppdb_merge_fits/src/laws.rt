// What a map that does not clash with a file promises.
ghost use Rattle.ppdb_merge_fits.specs.Laws.{NothingClashes};
ghost use Rattle.ppdb_merge_fits.specs.Worked.{WorkedMaps};

use ppdb_tables::codes_are_parents;
use ppdb_values::lists_are_owned;

/// Worked maps of small files, and what is reported of each.
pub fn worked_maps()
    ensures { WorkedMaps }
{}

/// A map that does not clash with a file fits it, and no record that is kept is of an unknown kind.
pub fn nothing_clashes()
    ensures { NothingClashes }
{
    codes_are_parents();
    lists_are_owned();
}
