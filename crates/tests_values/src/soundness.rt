// Which values are sound.
use crate::parts::{
    add_constant, add_document, add_variable, custom, empty, imports, lines, point, scope,
};
use crate::worked::{add_method, add_program, add_small};
use custom_info::{HOISTED_SCOPES, SOURCE_LINK};
use ppdb_base::{List, Memory};
use ppdb_build::sound;
use ppdb_tables::MachineRow;
use ppdb_values::{CustomBody, FileValue, ImportValue, ScopeValue, VariableValue};
use sequence_points::{Point, Span};
use std::alloc::Global;
use type_blobs::TypeToken;

/// Whether a value is sound, once it was filled.
fn is_sound(alloc: Global, value: &FileValue, filled: Result<(), Memory>) -> Result<bool, Memory> {
    filled?;
    sound(alloc, value)
}

/// Whether the value of no rows with this entry is sound.
fn entry_is_sound(alloc: Global, entry: u32) -> Result<bool, Memory> {
    let mut value = empty(alloc);
    value.entry = entry;
    sound(alloc, &value)
}

/// Whether the value of the small file is sound.
fn small_is_sound(alloc: Global) -> Result<bool, Memory> {
    let mut value = empty(alloc);
    let filled = add_small(alloc, &mut value);
    is_sound(alloc, &value, filled)
}

/// Whether the value of the program is sound.
fn program_is_sound(alloc: Global) -> Result<bool, Memory> {
    let mut value = empty(alloc);
    let filled = add_program(alloc, &mut value);
    is_sound(alloc, &value, filled)
}

#[test]
fn values_of_files_are_sound(rt: HostRuntime) {
    let alloc = rt.alloc();
    assert_eq!(rt; entry_is_sound(alloc, 0), Ok(true));
    assert_eq!(rt; entry_is_sound(alloc, 1), Ok(false));
    assert_eq!(rt; small_is_sound(alloc), Ok(true));
    assert_eq!(rt; program_is_sound(alloc), Ok(true));
}

/// Whether the value of so many rows of one table is sound.
fn rows_are_sound(alloc: Global, table: usize, rows: u32) -> Result<bool, Memory> {
    let mut value = empty(alloc);
    if table < 64 {
        value.rows[table] = rows;
    }
    sound(alloc, &value)
}

/// Adds the small file, and its document once more.
fn add_document_twice(alloc: Global, value: &mut FileValue) -> Result<(), Memory> {
    add_small(alloc, value)?;
    add_document(alloc, &mut value.documents)
}

/// Whether the value of the small file with its document twice is sound.
fn document_twice_is_sound(alloc: Global) -> Result<bool, Memory> {
    let mut value = empty(alloc);
    let filled = add_document_twice(alloc, &mut value);
    is_sound(alloc, &value, filled)
}

#[test]
fn rows_and_documents(rt: HostRuntime) {
    let alloc = rt.alloc();
    for (table, rows, answer) in [
        (0x00, 16777215, true),
        (0x2c, 1, true),
        (0x2c, 16777216, false),
        (0x2d, 1, false),
        (0x30, 1, false),
        (0x3f, 1, false),
    ] {
        assert_eq!(rt; rows_are_sound(alloc, table, rows), Ok(answer));
    }
    assert_eq!(rt; document_twice_is_sound(alloc), Ok(false));
}

/// Adds the small file, whose method has these points in place of its own.
fn add_points(alloc: Global, value: &mut FileValue, points: &[Point]) -> Result<(), Memory> {
    add_small(alloc, value)?;
    value.methods.clear();
    add_method(alloc, &mut value.methods, points)
}

/// Whether the value of the small file with these points is sound.
fn points_are_sound(alloc: Global, points: &[Point]) -> Result<bool, Memory> {
    let mut value = empty(alloc);
    let filled = add_points(alloc, &mut value, points);
    is_sound(alloc, &value, filled)
}

/// Adds the small file, and its method once more.
fn add_method_twice(alloc: Global, value: &mut FileValue) -> Result<(), Memory> {
    add_small(alloc, value)?;
    add_method(alloc, &mut value.methods, &[point(0, Span::Hidden)])
}

/// Whether the value of the small file with its method twice is sound.
fn method_twice_is_sound(alloc: Global) -> Result<bool, Memory> {
    let mut value = empty(alloc);
    let filled = add_method_twice(alloc, &mut value);
    is_sound(alloc, &value, filled)
}

#[test]
fn points_and_methods(rt: HostRuntime) {
    let alloc = rt.alloc();
    for (first, second, span, answer) in [
        (0x20000000, 0x7fffffff, Span::Hidden, true),
        (3, 3, Span::Hidden, false),
        (0, 0x80000000, Span::Hidden, false),
        (0, 3, lines(10, 5, 10, 5), false),
        (0, 3, lines(10, 5, 10, 6), true),
        (0, 3, lines(0xfeefee, 5, 0xfeefef, 6), false),
        (0, 3, lines(10, 5, 11, 65536), false),
    ] {
        let points = [point(first, span), point(second, span)];
        assert_eq!(rt; points_are_sound(alloc, &points), Ok(answer));
    }
    assert_eq!(rt; method_twice_is_sound(alloc), Ok(false));
}

/// Adds the small file, whose scopes have these ranges in place of their own.
fn add_ranges(alloc: Global, value: &mut FileValue, ranges: [(u32, u32); 3]) -> Result<(), Memory> {
    add_small(alloc, value)?;
    value.scopes.clear();
    for (start, end) in ranges {
        value.scopes.push(scope(alloc, 1, start, end))?;
    }
    Ok(())
}

/// Whether the value of the small file with scopes of these ranges is sound.
fn ranges_are_sound(alloc: Global, ranges: [(u32, u32); 3]) -> Result<bool, Memory> {
    let mut value = empty(alloc);
    let filled = add_ranges(alloc, &mut value, ranges);
    is_sound(alloc, &value, filled)
}

#[test]
fn ranges_of_scopes(rt: HostRuntime) {
    let alloc = rt.alloc();
    for (ranges, answer) in [
        ([(0, 9), (0, 9), (9, 12)], true),
        ([(0, 9), (2, 5), (6, 9)], true),
        ([(0, 9), (2, 5), (5, 7)], true),
        ([(0, 9), (2, 5), (6, 12)], false),
        ([(0, 9), (5, 12), (12, 13)], false),
        ([(0, 5), (0, 9), (9, 12)], false),
        ([(0, 9), (3, 3), (9, 12)], false),
        ([(0, 9), (9, 10), (10, 0x80000000)], false),
    ] {
        assert_eq!(rt; ranges_are_sound(alloc, ranges), Ok(answer));
    }
}

/// A variable and a constant: a slot, a name, another name and the bytes of a value.
type Items<'a> = (u16, &'a [u8], &'a [u8], &'a [u8]);

/// Adds the variable `x`, the constant `j` and these two.
fn add_items(alloc: Global, outer: &mut ScopeValue, items: Items<'_>) -> Result<(), Memory> {
    let (slot, name, constant_name, content) = items;
    add_variable(alloc, &mut outer.variables, 0, b"x")?;
    add_variable(alloc, &mut outer.variables, slot, name)?;
    add_constant(alloc, &mut outer.constants, b"j", 0x02, b"\x01")?;
    add_constant(alloc, &mut outer.constants, constant_name, 0x08, content)
}

/// Adds the small file, which has in place of its scopes one with these items.
fn add_outer(alloc: Global, value: &mut FileValue, items: Items<'_>) -> Result<(), Memory> {
    add_small(alloc, value)?;
    value.scopes.clear();
    let mut outer = scope(alloc, 1, 0, 9);
    match add_items(alloc, &mut outer, items) {
        Ok(()) => value.scopes.push(outer),
        Err(error) => Err(error),
    }
}

/// Whether the value of the small file with a scope of these items is sound.
fn items_are_sound(alloc: Global, items: Items<'_>) -> Result<bool, Memory> {
    let mut value = empty(alloc);
    let filled = add_outer(alloc, &mut value, items);
    is_sound(alloc, &value, filled)
}

#[test]
fn items_of_a_scope(rt: HostRuntime) {
    let alloc = rt.alloc();
    let four = b"\x01\x02\x03\x04".as_slice();
    for (slot, name, constant_name, content, answer) in [
        (1, b"y".as_slice(), b"k".as_slice(), four, true),
        (0, b"y", b"k", four, false),
        (1, b"x", b"k", four, false),
        (1, b"x\0", b"k", four, false),
        (1, b"y", b"k\0", four, false),
        (1, b"y", b"j", four, false),
        (1, b"y", b"k", b"\x01\x02\x03", false),
    ] {
        let items = (slot, name, constant_name, content);
        assert_eq!(rt; items_are_sound(alloc, items), Ok(answer));
    }
}

/// Adds 300 variables, and one that has this slot and this name.
fn add_variables(
    alloc: Global,
    variables: &mut List<VariableValue>,
    slot: u16,
    name: &[u8],
) -> Result<(), Memory> {
    for i in 0..300u16 {
        let name = [b'v', (i / 200) as u8 + 1, (i % 200) as u8 + 1];
        add_variable(alloc, variables, i, &name)?;
    }
    add_variable(alloc, variables, slot, name)
}

/// Adds the small file, which has in place of its scopes one with so many variables.
fn add_crowd(alloc: Global, value: &mut FileValue, slot: u16, name: &[u8]) -> Result<(), Memory> {
    add_small(alloc, value)?;
    value.scopes.clear();
    let mut crowd = scope(alloc, 1, 0, 9);
    match add_variables(alloc, &mut crowd.variables, slot, name) {
        Ok(()) => value.scopes.push(crowd),
        Err(error) => Err(error),
    }
}

/// Whether the value of a scope of 300 variables, and one that has this slot and this name, is sound.
fn crowd_is_sound(alloc: Global, slot: u16, name: &[u8]) -> Result<bool, Memory> {
    let mut value = empty(alloc);
    let filled = add_crowd(alloc, &mut value, slot, name);
    is_sound(alloc, &value, filled)
}

#[test]
fn many_variables(rt: HostRuntime) {
    let alloc = rt.alloc();
    assert_eq!(rt; crowd_is_sound(alloc, 300, b"w"), Ok(true));
    assert_eq!(rt; crowd_is_sound(alloc, 7, b"w"), Ok(false));
    assert_eq!(rt; crowd_is_sound(alloc, 300, b"v\x01\x08"), Ok(false));
}

/// Adds the small file, and import scopes with these parents.
fn add_imports(alloc: Global, value: &mut FileValue, parents: [u32; 2]) -> Result<(), Memory> {
    add_small(alloc, value)?;
    for parent in parents {
        value.imports.push(imports(alloc, parent))?;
    }
    Ok(())
}

/// Whether the value of the small file with import scopes of these parents is sound.
fn imports_are_sound(alloc: Global, parents: [u32; 2]) -> Result<bool, Memory> {
    let mut value = empty(alloc);
    let filled = add_imports(alloc, &mut value, parents);
    is_sound(alloc, &value, filled)
}

#[test]
fn chains_of_imports(rt: HostRuntime) {
    let alloc = rt.alloc();
    for (parents, answer) in [
        ([0, 1], true),
        ([2, 0], true),
        ([1, 0], false),
        ([2, 1], false),
        ([0, 3], false),
    ] {
        assert_eq!(rt; imports_are_sound(alloc, parents), Ok(answer));
    }
}

/// Adds the program, and an import scope that imports this type.
fn add_target(alloc: Global, value: &mut FileValue, target: TypeToken) -> Result<(), Memory> {
    add_program(alloc, value)?;
    let mut targets = imports(alloc, 0);
    let added = targets.imports.push(ImportValue::Target { target });
    value.imports.push(targets)?;
    added
}

/// Whether the value of the program with an import of this type is sound.
fn target_is_sound(alloc: Global, target: TypeToken) -> Result<bool, Memory> {
    let mut value = empty(alloc);
    let filled = add_target(alloc, &mut value, target);
    is_sound(alloc, &value, filled)
}

#[test]
fn targets_of_imports(rt: HostRuntime) {
    let alloc = rt.alloc();
    for (table, row, answer) in [(0x02, 3, true), (0x02, 4, false), (0x06, 1, false)] {
        let target = TypeToken { table, row };
        assert_eq!(rt; target_is_sound(alloc, target), Ok(answer));
    }
}

/// Adds the program, which has these state machines in place of its own.
fn add_machines(
    alloc: Global,
    value: &mut FileValue,
    machines: [(u32, u32); 3],
) -> Result<(), Memory> {
    add_program(alloc, value)?;
    value.machines.clear();
    for (move_next, kickoff) in machines {
        value.machines.push(MachineRow { move_next, kickoff })?;
    }
    Ok(())
}

/// Whether the value of the program with these state machines is sound.
fn machines_are_sound(alloc: Global, machines: [(u32, u32); 3]) -> Result<bool, Memory> {
    let mut value = empty(alloc);
    let filled = add_machines(alloc, &mut value, machines);
    is_sound(alloc, &value, filled)
}

#[test]
fn machines(rt: HostRuntime) {
    let alloc = rt.alloc();
    for (machines, answer) in [
        ([(1, 5), (2, 4), (3, 3)], true),
        ([(1, 5), (2, 4), (3, 5)], false),
        ([(1, 5), (1, 4), (3, 3)], false),
        ([(1, 5), (2, 4), (6, 3)], false),
    ] {
        assert_eq!(rt; machines_are_sound(alloc, machines), Ok(answer));
    }
}

/// Adds the small file, and records of this kind on row 1 of these tables.
fn add_customs(
    alloc: Global,
    value: &mut FileValue,
    tables: [u8; 2],
    kind: [u8; 16],
) -> Result<(), Memory> {
    add_small(alloc, value)?;
    value.rows[0] = 1;
    value.rows[12] = 1;
    for table in tables {
        let nothing = CustomBody::Unread(List::new(alloc));
        value.customs.push(custom(table, 1, kind, nothing))?;
    }
    Ok(())
}

/// Whether the value of the small file with records of this kind on these tables is sound.
fn customs_are_sound(alloc: Global, tables: [u8; 2], kind: [u8; 16]) -> Result<bool, Memory> {
    let mut value = empty(alloc);
    let filled = add_customs(alloc, &mut value, tables, kind);
    is_sound(alloc, &value, filled)
}

#[test]
fn custom_records(rt: HostRuntime) {
    let alloc = rt.alloc();
    for (tables, kind, answer) in [
        ([0x06, 0x00], SOURCE_LINK, true),
        ([0x06, 0x06], SOURCE_LINK, true),
        ([0x00, 0x06], SOURCE_LINK, false),
        ([0x06, 0x0c], SOURCE_LINK, false),
        ([0x06, 0x33], SOURCE_LINK, true),
        ([0x06, 0x34], SOURCE_LINK, false),
        ([0x06, 0x06], HOISTED_SCOPES, false),
    ] {
        assert_eq!(rt; customs_are_sound(alloc, tables, kind), Ok(answer));
    }
}

/// Adds the small file, which has in place of its scopes 20000, each in the one before, and where asked one that crosses them.
fn add_nest(alloc: Global, value: &mut FileValue, crossed: bool) -> Result<(), Memory> {
    add_small(alloc, value)?;
    value.scopes.clear();
    for i in 0..20000u32 {
        value.scopes.push(scope(alloc, 1, i, 100000 - i))?;
    }
    if crossed {
        value.scopes.push(scope(alloc, 1, 80001, 90001))?;
    }
    Ok(())
}

/// Whether the value of 20000 scopes, each in the one before, is sound.
fn nest_is_sound(alloc: Global, crossed: bool) -> Result<bool, Memory> {
    let mut value = empty(alloc);
    let filled = add_nest(alloc, &mut value, crossed);
    is_sound(alloc, &value, filled)
}

#[test]
fn deep_nesting(rt: HostRuntime) {
    let alloc = rt.alloc();
    assert_eq!(rt; nest_is_sound(alloc, false), Ok(true));
    assert_eq!(rt; nest_is_sound(alloc, true), Ok(false));
}

/// Adds the small file, 20000 import scopes, each of which has the row before it as parent or, where they lead to later rows, the
/// row after it, and where there is one a last scope with this parent.
fn add_chain(
    alloc: Global,
    value: &mut FileValue,
    later: bool,
    last: Option<u32>,
) -> Result<(), Memory> {
    add_small(alloc, value)?;
    for i in 0..20000u32 {
        let parent = if later { i + 2 } else { i };
        value.imports.push(imports(alloc, parent))?;
    }
    if let Some(parent) = last {
        value.imports.push(imports(alloc, parent))?;
    }
    Ok(())
}

/// Whether the value of a chain of 20000 import scopes is sound.
fn chain_is_sound(alloc: Global, later: bool, last: Option<u32>) -> Result<bool, Memory> {
    let mut value = empty(alloc);
    let filled = add_chain(alloc, &mut value, later, last);
    is_sound(alloc, &value, filled)
}

#[test]
fn long_chains(rt: HostRuntime) {
    let alloc = rt.alloc();
    assert_eq!(rt; chain_is_sound(alloc, false, None), Ok(true));
    assert_eq!(rt; chain_is_sound(alloc, false, Some(20001)), Ok(false));
}

#[test]
fn long_chains_to_later_rows(rt: HostRuntime) {
    let alloc = rt.alloc();
    for (last, answer) in [(0, true), (1, false)] {
        assert_eq!(rt; chain_is_sound(alloc, true, Some(last)), Ok(answer));
    }
}
