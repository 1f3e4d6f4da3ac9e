// The two lists of a scope.
ghost use Rattle.std.specs.Prelude.{◌≡◌};
ghost use Rattle.ppdb_verify_rules.specs.Lists.{list_of, table_of, column_of};

use ppdb_tables::{LOCAL_CONSTANT, LOCAL_VARIABLE, ScopeRow};

/// A list of a scope.
#[derive(Clone, Copy)]
pub(crate) enum ScopeList {
    /// Its variables, by VariableList.
    Variables,
    /// Its constants, by ConstantList.
    Constants,
}

impl ScopeList {
    /// The first row of the list.
    pub(crate) fn of(self, scope: &ScopeRow) -> u32
        ensures { result ≡ list_of self scope.now }
    {
        match self {
            ScopeList::Variables => scope.variables,
            ScopeList::Constants => scope.constants,
        }
    }

    /// The table of its items.
    pub(crate) fn table(self) -> u8
        ensures { result ≡ table_of self }
    {
        match self {
            ScopeList::Variables => LOCAL_VARIABLE,
            ScopeList::Constants => LOCAL_CONSTANT,
        }
    }

    /// The column of the scope that names it.
    pub(crate) fn column(self) -> u8
        ensures { result ≡ column_of self }
    {
        match self {
            ScopeList::Variables => 2,
            ScopeList::Constants => 3,
        }
    }
}
