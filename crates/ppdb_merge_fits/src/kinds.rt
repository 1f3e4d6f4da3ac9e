// Custom records of unknown kinds.
ghost use Rattle.std.specs.Prelude.{◌≡◌, ◌≤◌, ◌++◌, IfOk, OnOk, length, map, slice_get};
ghost use Rattle.std.specs.List.{flat_map};
ghost use Rattle.ppdb_tables.specs.RawTables.{numbered, row_at};
ghost use Rattle.ppdb_values.specs.Value.{value_of as value_in};
ghost use Rattle.ppdb_verify.specs.Views.{raw_file};
ghost use Rattle.ppdb_merge_fits.specs.Clashes.{method_at, is_at_dropped, is_at_gone, is_at_gone_constant, is_unknown};
ghost use Rattle.ppdb_merge_items.specs.NamedRows.{goes_constant};
ghost use Rattle.ppdb_merge_fits.specs.Clashes.{if_unknown, unknown_kinds};
ghost use Rattle.ppdb_merge_fits.specs.Walks.{has_unknown};

use custom_info::{Kind, Marks, kind_of};
use ppdb_base::{List, Memory, MergeError, Steps};
use ppdb_maps::MapText;
use ppdb_merge_moved::{constant_goes, is_gone_row};
use ppdb_tables::{CUSTOM, LOCAL_CONSTANT, LOCAL_SCOPE, LOCAL_VARIABLE, METHOD_DEF, Parent};
use ppdb_values::{ConstantValue, CustomValue, FileValue, ScopeValue};
use ppdb_values_reading::value_of;
use ppdb_verify::Verified;
use ppdb_verify_rows::{count, custom, guid_of_kind};
use std::alloc::Global;
use std::marker::Model;
use std::sync::ledger::Ledger;

/// Puts a method after others, once for each item.
fn put_for_each<T>(methods: &mut List<u32>, method: u32, items: &[T]) -> Result<(), Memory>
    ensures { OnOk result (methods.new ≡ methods.old ++ map (λ item. method) items.now) }
{
    for _ in items {
        methods.push(method)?;
    }
    Ok(())
}

/// The methods of the scopes.
fn scope_methods(alloc: Global, scopes: &[ScopeValue]) -> Result<List<u32>, Memory>
    ensures { IfOk result (λ methods. methods ≡ map (λ s. s.method) scopes.now) }
{
    let mut methods = List::new(alloc);
    for scope in scopes {
        methods.push(scope.method)?;
    }
    Ok(methods)
}

/// The methods of the variables of all scopes.
fn variable_methods(alloc: Global, scopes: &[ScopeValue]) -> Result<List<u32>, Memory>
    ensures { IfOk result (λ methods. methods ≡ flat_map (λ s. map (λ v. s.method) s.variables) scopes.now) }
{
    let mut methods = List::new(alloc);
    for scope in scopes {
        put_for_each(&mut methods, scope.method, scope.variables.as_slice())?;
    }
    Ok(methods)
}

/// The methods of the constants of all scopes.
fn constant_methods(alloc: Global, scopes: &[ScopeValue]) -> Result<List<u32>, Memory>
    ensures { IfOk result (λ methods. methods ≡ flat_map (λ s. map (λ c. s.method) s.constants) scopes.now) }
{
    let mut methods = List::new(alloc);
    for scope in scopes {
        put_for_each(&mut methods, scope.method, scope.constants.as_slice())?;
    }
    Ok(methods)
}

/// Adds of each of the constants whether it is removed.
fn add_gone(gone: &mut List<bool>, by: &MapText, constants: &[ConstantValue]) -> Result<(), Memory>
    ensures { OnOk result (gone.new ≡ gone.old ++ map (goes_constant by.now) constants.now) }
{
    for constant in constants {
        gone.push(constant_goes(by, constant))?;
    }
    Ok(())
}

/// Of each of the constants of all scopes whether it is removed.
fn gone_constants(alloc: Global, by: &MapText, scopes: &[ScopeValue]) -> Result<List<bool>, Memory>
    ensures { IfOk result (λ gone. gone ≡ map (goes_constant by.now) (flat_map (λ s. s.constants) scopes.now)) }
{
    let mut gone = List::new(alloc);
    for scope in scopes {
        add_gone(&mut gone, by, scope.constants.as_slice())?;
    }
    Ok(gone)
}

/// A value and a map: the methods of the scopes and of what they own, by rows, and the constants that are removed. It is seen as the two.
#[derive(Drop)]
struct Rows<'v> {
    by: &'v MapText,
    value: &'v FileValue,
    scopes: List<u32>,
    variables: List<u32>,
    constants: List<u32>,
    gone: List<bool>,
}

impl<'v> Model for Rows<'v> {
    ghost use Rattle.std.specs.Prelude.{◌≡◌, map, flat_map};
    ghost use Rattle.ppdb_maps.specs.Map.{Map};
    ghost use Rattle.ppdb_values.specs.declared.file.FileValue.{FileValue};
    ghost use Rattle.ppdb_values.specs.declared.scope.ScopeValue.{ScopeValue as scope_value};
    ghost use Rattle.ppdb_merge_items.specs.NamedRows.{goes_constant};

    ghost Value = { Map × FileValue };

    ghost view = { λ r. (r.by.now, r.value.now) };

    ghost invariant = { λ r. (r.scopes ≡ map (λ (s : scope_value). s.method) r.value.now.scopes)
        × (r.variables ≡ flat_map (λ (s : scope_value). map (λ v. s.method) s.variables) r.value.now.scopes)
        × (r.constants ≡ flat_map (λ (s : scope_value). map (λ c. s.method) s.constants) r.value.now.scopes)
        × (r.gone ≡ map (goes_constant r.by.now) (flat_map (λ (s : scope_value). s.constants) r.value.now.scopes)) };
}

/// The entry of a row; none past the last.
fn entry<T: Copy>(entries: &[T], row: u32) -> Option<T>
    ensures { result ≡ row_at entries.now row }
{
    if row == 0 {
        return None;
    }
    entries.get(row as usize - 1).copied()
}

impl<'v> Rows<'v> {
    fn new(alloc: Global, map: &'v MapText, value: &'v FileValue) -> Result<Rows<'v>, Memory>
        ensures { IfOk result (λ rows. rows ≡ (map.now, value.now)) }
    {
        let scopes = value.scopes.as_slice();
        Ok(Rows {
            by: map,
            value,
            scopes: scope_methods(alloc, scopes)?,
            variables: variable_methods(alloc, scopes)?,
            constants: constant_methods(alloc, scopes)?,
            gone: gone_constants(alloc, map, scopes)?,
        })
    }

    /// The method at which a row stands.
    fn method_at(&self, parent: Parent) -> Option<u32>
        ensures { result ≡ method_at self.now.1 parent }
    {
        match parent.table {
            METHOD_DEF => Some(parent.row),
            LOCAL_SCOPE => entry(self.scopes.as_slice(), parent.row),
            LOCAL_VARIABLE => entry(self.variables.as_slice(), parent.row),
            LOCAL_CONSTANT => entry(self.constants.as_slice(), parent.row),
            _ => None,
        }
    }

    /// Whether a row stands at a dropped method.
    fn is_at_dropped(&self, parent: Parent) -> bool
        ensures { result ≡ is_at_dropped self.now.0 self.now.1 parent }
    {
        match self.method_at(parent) {
            Some(method) => self.by.dropped(method),
            None => false,
        }
    }

    /// Whether a row is that of a constant that is removed.
    fn is_at_gone_constant(&self, parent: Parent) -> bool
        ensures { result ≡ is_at_gone_constant self.now.0 self.now.1 parent }
    {
        parent.table == LOCAL_CONSTANT && entry(self.gone.as_slice(), parent.row).unwrap_or(false)
    }

    /// Whether the custom records on a row are removed.
    fn is_at_gone(&self, parent: Parent) -> bool
        ensures { result ≡ is_at_gone self.now.0 self.now.1 parent }
    {
        self.is_at_dropped(parent)
            || is_gone_row(self.by, parent.table, parent.row)
            || self.is_at_gone_constant(parent)
    }
}

/// Whether records of the kind are neither read nor passed on.
pub fn is_unknown(kind: Kind) -> bool
    ensures { result ≡ is_unknown kind }
{
    matches!(kind, Kind::Unknown)
}

/// Whether some record has an unknown kind.
fn any_unknown<L: Ledger>(file: &Verified<'_>, marks: &Marks, steps: &mut Steps<L>) -> bool
    ensures { result ≡ has_unknown marks.now (value_in (raw_file file.now)).customs }
{
    let _ = file.keeps();
    let count = count(file, CUSTOM);
    let mut row: u32 = 0;
    'rows: while row < count {
        row += 1;
        let cells = custom(file, row, steps);
        if is_unknown(kind_of(&guid_of_kind(file, row, &cells), marks)) {
            return true;
        }
    }
    false
}

/// What is reported of a record of an unknown kind, unless it is on what is removed.
fn kind_unknown(
    marks: &Marks,
    rows: &Rows<'_>,
    row: u32,
    custom: &CustomValue,
) -> Option<MergeError>
    ensures { result ≡ slice_get (if_unknown marks.now rows.now.0 rows.now.1 (row, custom.now)) 0 }
{
    if is_unknown(kind_of(&custom.kind, marks)) && !rows.is_at_gone(custom.parent) {
        return Some(MergeError::KindUnknown {
            row,
            kind: custom.kind,
        });
    }
    None
}

/// What is reported of the first record of an unknown kind that is not on what is removed.
fn first_in(marks: &Marks, rows: &Rows<'_>, customs: &[CustomValue]) -> Option<MergeError>
    requires { length customs.now ≤ 16777215 }
    ensures { result ≡ slice_get (flat_map (if_unknown marks.now rows.now.0 rows.now.1) (numbered customs.now)) 0 }
{
    let mut row: u32 = 0;
    for custom in customs {
        row += 1;
        if let Some(error) = kind_unknown(marks, rows, row, custom) {
            return Some(error);
        }
    }
    None
}

/// What is reported of the first record of an unknown kind that is not on what is removed. Only a file that has one is read as a value, whose scopes tell the
/// methods of rows.
pub(crate) fn first_unknown<L: Ledger>(
    alloc: Global,
    marks: &Marks,
    map: &MapText,
    file: &Verified<'_>,
    steps: &mut Steps<L>,
) -> Result<Option<MergeError>, Memory>
    ensures { IfOk result (λ told. told ≡ slice_get (unknown_kinds marks.now map.now (value_in (raw_file file.now))) 0) }
{
    let _ = file.keeps();
    if !any_unknown(file, marks, steps) {
        return Ok(None);
    }
    let value = value_of(alloc, file, steps)?;
    let rows = Rows::new(alloc, map, &value)?;
    Ok(first_in(marks, &rows, value.customs.as_slice()))
}
