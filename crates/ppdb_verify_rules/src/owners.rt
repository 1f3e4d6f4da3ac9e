// Which scope an item of a list belongs to.
ghost use Rattle.std.specs.Prelude.{◌<◌, ◌≤◌, ◌+◌, ◌-◌};
ghost use Rattle.ppdb_tables.specs.RawTables.{count};
ghost use Rattle.ppdb_tables.specs.RawOf.{raw_of};
ghost use Rattle.ppdb_verify_rules.specs.Lists.{list_of};
ghost use Rattle.ppdb_verify_rules.specs.Scopes.{Owns};
ghost use Rattle.ppdb_verify_rules.specs.Seen.{HaveLists, OwnsBefore};

use crate::cells::row_count;
use crate::lists::ScopeList;
use ppdb_base::Steps;
use ppdb_tables::{LOCAL_SCOPE, Tables};
use std::sync::ledger::Ledger;

/// The owner of an item, looked for from the owner of the item before on.
pub(crate) fn owner_of<L: Ledger>(
    tables: &Tables<'_>,
    list: ScopeList,
    row: u32,
    before: u32,
    steps: &mut Steps<L>,
) -> u32
    requires first { 1 ≤ row }
    requires lists { HaveLists (raw_of tables.now) list }
    requires some { 0 < count (raw_of tables.now) 0x32 }
    requires before { OwnsBefore (list_of list) (raw_of tables.now).scopes before row }
    ensures owns { Owns (list_of list) (raw_of tables.now).scopes result row }
    ensures on { before ≤ result }
{
    let scopes = row_count(tables, LOCAL_SCOPE);
    let mut owner = before;
    while owner < scopes {
        let next = tables.scope(owner + 1, steps);
        if row < list.of(&next) {
            break;
        }
        owner += 1;
    }
    owner
}
