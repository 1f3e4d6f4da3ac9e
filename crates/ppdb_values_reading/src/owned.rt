// What a cursor lends, as values of their own.
ghost use Rattle.std.specs.Prelude.{◌≡◌, IfOk};
ghost use Rattle.type_blobs.specs.ConstantReading.{shown as constant_shown};
ghost use Rattle.type_blobs.specs.ImportReading.{shown as import_shown};
ghost use Rattle.ppdb_values.specs.Constants.{body_value};
ghost use Rattle.ppdb_values.specs.Imports.{import_value};

use ppdb_base::{List, Memory};
use ppdb_values::{ConstantBody, ImportValue};
use std::alloc::Global;
use type_blobs::{Constant, Import};

/// The type and the value of a constant.
pub(crate) fn owned_constant(alloc: Global, body: &Constant<'_>) -> Result<ConstantBody, Memory>
    ensures { IfOk result (λ value. value ≡ body_value (constant_shown body.now)) }
{
    match *body {
        Constant::Primitive { code, value } => Ok(ConstantBody::Primitive {
            code,
            value: List::copied(alloc, value)?,
        }),
        Constant::Enumerated {
            code,
            value,
            target,
        } => Ok(ConstantBody::Enumerated {
            code,
            value: List::copied(alloc, value)?,
            target,
        }),
        Constant::General { code, target, rest } => Ok(ConstantBody::General {
            code,
            target,
            rest: List::copied(alloc, rest)?,
        }),
        Constant::Object => Ok(ConstantBody::Object),
    }
}

/// An import.
pub(crate) fn owned_import(alloc: Global, import: &Import<'_>) -> Result<ImportValue, Memory>
    ensures { IfOk result (λ value. value ≡ import_value (import_shown import.now)) }
{
    match *import {
        Import::Namespace { namespace } => Ok(ImportValue::Namespace {
            namespace: List::copied(alloc, namespace)?,
        }),
        Import::AssemblyNamespace {
            assembly,
            namespace,
        } => Ok(ImportValue::AssemblyNamespace {
            assembly,
            namespace: List::copied(alloc, namespace)?,
        }),
        Import::Target { target } => Ok(ImportValue::Target { target }),
        Import::Xml { alias, namespace } => Ok(ImportValue::Xml {
            alias: List::copied(alloc, alias)?,
            namespace: List::copied(alloc, namespace)?,
        }),
        Import::Alias { alias } => Ok(ImportValue::Alias {
            alias: List::copied(alloc, alias)?,
        }),
        Import::AssemblyAlias { alias, assembly } => Ok(ImportValue::AssemblyAlias {
            alias: List::copied(alloc, alias)?,
            assembly,
        }),
        Import::NamespaceAlias { alias, namespace } => Ok(ImportValue::NamespaceAlias {
            alias: List::copied(alloc, alias)?,
            namespace: List::copied(alloc, namespace)?,
        }),
        Import::AssemblyNamespaceAlias {
            alias,
            assembly,
            namespace,
        } => Ok(ImportValue::AssemblyNamespaceAlias {
            alias: List::copied(alloc, alias)?,
            assembly,
            namespace: List::copied(alloc, namespace)?,
        }),
        Import::TargetAlias { alias, target } => Ok(ImportValue::TargetAlias {
            alias: List::copied(alloc, alias)?,
            target,
        }),
    }
}
