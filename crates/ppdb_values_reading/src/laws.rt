// The lists of the scopes, and what the scopes of a value own.
ghost use Rattle.ppdb_values_reading.specs.Scopes.{ScopesOwnTheirLists};

use ppdb_values::lists_are_owned;

/// In a file that keeps the rules, the lists of the scopes share out the rows of LocalVariable and
/// of LocalConstant: a scope of the value owns the items of its lists.
pub fn scopes_own_their_lists()
    ensures { ScopesOwnTheirLists }
{
    lists_are_owned();
}
