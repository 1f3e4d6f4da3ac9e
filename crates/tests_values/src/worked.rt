// The values of two worked files.
use crate::parts::{
    add_constant, add_document, add_variable, bytes, custom, imports, lines, point, scope,
};
use custom_info::{
    ASYNC_STEPPING, AsyncStep, COMPILATION_OPTIONS, HOISTED_SCOPES, Range, SOURCE_LINK, Slot,
};
use ppdb_base::{List, Memory};
use ppdb_tables::MachineRow;
use ppdb_values::{
    CustomBody, CustomValue, DocumentValue, FileValue, ImportScopeValue, ImportValue, MethodValue,
    ScopeValue,
};
use sequence_points::{Point, Span};
use std::alloc::Global;

/// The points of the one method.
pub fn small_points() -> [Point; 3] {
    [
        point(0, lines(10, 5, 10, 9)),
        point(3, Span::Hidden),
        point(7, lines(12, 1, 13, 2)),
    ]
}

/// The points of an asynchronous Main.
pub fn program_points() -> [Point; 9] {
    [
        point(0, Span::Hidden),
        point(14, lines(6, 5, 6, 6)),
        point(15, lines(7, 9, 7, 34)),
        point(22, lines(8, 9, 8, 31)),
        point(35, Span::Hidden),
        point(107, lines(9, 9, 9, 38)),
        point(132, Span::Hidden),
        point(152, lines(10, 5, 10, 6)),
        point(160, Span::Hidden),
    ]
}

/// Where the locals of an asynchronous Main are held.
pub const PROGRAM_SLOTS: [Slot; 2] = [
    Slot::Held(Range {
        start: 14,
        end: 161,
    }),
    Slot::Empty,
];

/// The steps of an asynchronous Main.
pub const PROGRAM_STEPS: [AsyncStep; 1] = [AsyncStep {
    pause: 61,
    resume: 82,
    method: 4,
}];

/// The row counts of the program's type system, by table.
const PROGRAM_ROWS: [(usize, u32); 7] = [
    (0x00, 1),
    (0x01, 14),
    (0x02, 3),
    (0x06, 5),
    (0x0a, 12),
    (0x11, 2),
    (0x23, 2),
];

/// Adds method 1 with these points.
pub fn add_method(
    alloc: Global,
    methods: &mut List<MethodValue>,
    points: &[Point],
) -> Result<(), Memory> {
    let points = List::copied(alloc, points)?;
    methods.push(MethodValue {
        method: 1,
        signature: 0,
        points,
    })
}

/// Adds a scope of method 1 that owns this variable.
fn add_scope(
    alloc: Global,
    scopes: &mut List<ScopeValue>,
    slot: u16,
    name: &[u8],
    range: (u32, u32),
) -> Result<(), Memory> {
    let mut own = scope(alloc, 1, range.0, range.1);
    match add_variable(alloc, &mut own.variables, slot, name) {
        Ok(()) => scopes.push(own),
        Err(error) => Err(error),
    }
}

/// Makes of an empty value that of a file of one method.
pub fn add_small(alloc: Global, value: &mut FileValue) -> Result<(), Memory> {
    value.entry = 1;
    value.rows[6] = 1;
    add_document(alloc, &mut value.documents)?;
    add_method(alloc, &mut value.methods, &small_points())?;
    add_scope(alloc, &mut value.scopes, 0, b"x", (0, 9))?;
    add_scope(alloc, &mut value.scopes, 1, b"y", (2, 5))
}

/// Adds a record whose bytes are not read.
fn add_unread(
    alloc: Global,
    customs: &mut List<CustomValue>,
    kind: [u8; 16],
    content: &[u8],
) -> Result<(), Memory> {
    let content = bytes(alloc, content)?;
    customs.push(custom(0x00, 1, kind, CustomBody::Unread(content)))
}

/// Adds the custom records of an asynchronous Main.
fn add_program_customs(alloc: Global, customs: &mut List<CustomValue>) -> Result<(), Memory> {
    add_unread(alloc, customs, SOURCE_LINK, b"{}")?;
    add_unread(alloc, customs, COMPILATION_OPTIONS, b"a\0b\0")?;
    let slots = List::copied(alloc, &PROGRAM_SLOTS)?;
    customs.push(custom(0x06, 4, HOISTED_SCOPES, CustomBody::Hoisted(slots)))?;
    let steps = List::copied(alloc, &PROGRAM_STEPS)?;
    let stepping = CustomBody::Async {
        handler: None,
        steps,
    };
    customs.push(custom(0x06, 4, ASYNC_STEPPING, stepping))
}

/// Adds an import of this namespace.
fn add_namespace(
    alloc: Global,
    targets: &mut List<ImportValue>,
    name: &[u8],
) -> Result<(), Memory> {
    let namespace = bytes(alloc, name)?;
    targets.push(ImportValue::Namespace { namespace })
}

/// Adds the import scopes of the program: one of all its files, and in it one of the names that Main uses.
fn add_program_imports(alloc: Global, scopes: &mut List<ImportScopeValue>) -> Result<(), Memory> {
    scopes.push(imports(alloc, 0))?;
    let mut usings = imports(alloc, 1);
    match add_namespace(alloc, &mut usings.imports, b"System") {
        Ok(()) => scopes.push(usings),
        Err(error) => Err(error),
    }
}

/// Adds the document of the program.
fn add_program_document(alloc: Global, documents: &mut List<DocumentValue>) -> Result<(), Memory> {
    let name = bytes(alloc, b"/src/app/Program.cs")?;
    let hash = bytes(alloc, &[0x5a; 32])?;
    documents.push(DocumentValue {
        name,
        algorithm: Some([0x29; 16]),
        hash,
        language: Some([0x51; 16]),
    })
}

/// Adds the scope of an asynchronous Main.
fn add_program_scope(alloc: Global, scopes: &mut List<ScopeValue>) -> Result<(), Memory> {
    let mut body = scope(alloc, 4, 0, 175);
    body.import = 2;
    match add_constant(alloc, &mut body.constants, b"Limit", 0x08, &[3, 0, 0, 0]) {
        Ok(()) => scopes.push(body),
        Err(error) => Err(error),
    }
}

/// Makes of an empty value that of the file of a program whose Main is asynchronous.
pub fn add_program(alloc: Global, value: &mut FileValue) -> Result<(), Memory> {
    value.entry = 2;
    for (table, rows) in PROGRAM_ROWS {
        value.rows[table] = rows;
    }
    add_program_document(alloc, &mut value.documents)?;
    let points = List::copied(alloc, &program_points())?;
    value.methods.push(MethodValue {
        method: 4,
        signature: 1,
        points,
    })?;
    add_program_scope(alloc, &mut value.scopes)?;
    add_program_imports(alloc, &mut value.imports)?;
    value.machines.push(MachineRow {
        move_next: 4,
        kickoff: 1,
    })?;
    add_program_customs(alloc, &mut value.customs)
}
