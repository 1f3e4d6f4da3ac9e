// The imports of the import scopes.
use crate::stop::{Cell, Stop};
use crate::text::{put_number, put_table};
use ppdb_base::{Sink, Steps, WriteError, put_escaped};
use ppdb_tables::{ASSEMBLY_REF, IMPORT_SCOPE, TYPE_DEF, TYPE_REF, TYPE_SPEC, Tables};
use std::sync::ledger::Ledger;
use type_blobs::{Import, ImportCursor, TypeLimits, TypeToken};

/// How many rows the tables have that a signature or an import names.
pub fn type_limits(tables: &Tables<'_>) -> TypeLimits {
    TypeLimits {
        type_refs: tables.rows(TYPE_REF),
        type_defs: tables.rows(TYPE_DEF),
        type_specs: tables.rows(TYPE_SPEC),
        assembly_refs: tables.rows(ASSEMBLY_REF),
    }
}

/// Puts the imports of each import scope.
pub fn put_imports<L: Ledger, O: Sink>(
    tables: &Tables<'_>,
    out: &mut O,
    steps: &mut Steps<L>,
) -> Result<(), Stop> {
    let limits = type_limits(tables);
    for index in 0..tables.rows(IMPORT_SCOPE) {
        let row = index + 1;
        let cell = Cell {
            table: IMPORT_SCOPE,
            row,
        };
        let cells = tables.import(row, steps);
        let Some(blob) = tables.blobs().get(cells.imports) else {
            return Err(Stop::Absent(cell));
        };
        put_scope(ImportCursor::new(blob, tables.blobs(), limits), cell, out)?;
    }
    Ok(())
}

/// Puts the imports that a cursor has left.
fn put_scope<O: Sink>(cursor: ImportCursor<'_>, cell: Cell, out: &mut O) -> Result<(), Stop> {
    let mut cursor = cursor;
    'imports: loop {
        match cursor.next() {
            Ok(Some(import)) => put_import(out, &Parts::of(import))?,
            Ok(None) => return Ok(()),
            Err(fault) => return Err(Stop::Blob(cell, fault)),
        }
    }
}

/// The parts of an import, as its line has them.
#[derive(Clone, Copy)]
struct Parts<'a> {
    kind: u32,
    alias: Option<&'a [u8]>,
    assembly: Option<u32>,
    namespace: Option<&'a [u8]>,
    target: Option<TypeToken>,
}

impl<'a> Parts<'a> {
    /// A kind without parts.
    fn kind(kind: u32) -> Parts<'a> {
        Parts {
            kind,
            alias: None,
            assembly: None,
            namespace: None,
            target: None,
        }
    }

    fn alias(self, alias: &'a [u8]) -> Parts<'a> {
        Parts {
            alias: Some(alias),
            ..self
        }
    }

    fn assembly(self, assembly: u32) -> Parts<'a> {
        Parts {
            assembly: Some(assembly),
            ..self
        }
    }

    fn namespace(self, namespace: &'a [u8]) -> Parts<'a> {
        Parts {
            namespace: Some(namespace),
            ..self
        }
    }

    fn target(self, target: TypeToken) -> Parts<'a> {
        Parts {
            target: Some(target),
            ..self
        }
    }

    /// The parts of an import.
    fn of(import: Import<'a>) -> Parts<'a> {
        match import {
            Import::Namespace { namespace } => Parts::kind(1).namespace(namespace),
            Import::AssemblyNamespace {
                assembly,
                namespace,
            } => Parts::kind(2).assembly(assembly).namespace(namespace),
            Import::Target { target } => Parts::kind(3).target(target),
            Import::Xml { alias, namespace } => Parts::kind(4).alias(alias).namespace(namespace),
            Import::Alias { alias } => Parts::kind(5).alias(alias),
            Import::AssemblyAlias { alias, assembly } => {
                Parts::kind(6).alias(alias).assembly(assembly)
            }
            Import::NamespaceAlias { alias, namespace } => {
                Parts::kind(7).alias(alias).namespace(namespace)
            }
            Import::AssemblyNamespaceAlias {
                alias,
                assembly,
                namespace,
            } => Parts::kind(8)
                .alias(alias)
                .assembly(assembly)
                .namespace(namespace),
            Import::TargetAlias { alias, target } => Parts::kind(9).alias(alias).target(target),
        }
    }
}

/// Puts the line of an import.
fn put_import<O: Sink>(out: &mut O, parts: &Parts<'_>) -> Result<(), WriteError> {
    put_number(out, b"use ", parts.kind)?;
    if let Some(alias) = parts.alias {
        put_name(out, b" alias ", alias)?;
    }
    if let Some(assembly) = parts.assembly {
        put_number(out, b" assembly ", assembly)?;
    }
    if let Some(namespace) = parts.namespace {
        put_name(out, b" namespace ", namespace)?;
    }
    if let Some(target) = parts.target {
        put_table(out, b" type ", target.table)?;
        put_number(out, b" ", target.row)?;
    }
    out.put(b"\n")
}

fn put_name<O: Sink>(out: &mut O, words: &[u8], name: &[u8]) -> Result<(), WriteError> {
    out.put(words)?;
    put_escaped(out, name)
}
