// What the types of a value carry, shown where the value is at hand.
ghost use Rattle.std.specs.Prelude.{◌≡◌, length, All, IfSome};
ghost use Rattle.ppdb_values.specs.Types.{IsGuid, HasGuids, IsNarrow, HasTypes};

use ppdb_values::{CustomValue, DocumentValue, FileValue, ScopeValue, VariableValue};

fn guid_is_long(guid: [u8; 16])
    ensures { length guid ≡ 16 }
{
    let _bytes: &[u8] = &guid;
}

fn guids_are_long(guid: Option<[u8; 16]>)
    ensures { IfSome guid IsGuid }
{
    if let Some(guid) = guid {
        guid_is_long(guid);
    }
}

/// The GUIDs of documents have 16 bytes each.
fn documents_have_guids(documents: &[DocumentValue])
    ensures { All HasGuids documents.now }
{
    for document in documents {
        guids_are_long(document.algorithm);
        guids_are_long(document.language);
    }
}

fn variable_is_narrow(variable: &VariableValue)
    ensures { IsNarrow variable.now }
{
    let _attributes = variable.attributes;
    let _slot = variable.slot;
}

/// Attributes and slots have two bytes each.
fn variables_are_narrow(variables: &[VariableValue])
    ensures { All IsNarrow variables.now }
{
    for variable in variables {
        variable_is_narrow(variable);
    }
}

fn scopes_are_narrow(scopes: &[ScopeValue])
    ensures { All (λ scope. All IsNarrow scope.variables) scopes.now }
{
    for scope in scopes {
        variables_are_narrow(scope.variables.as_slice());
    }
}

/// The kinds of custom records have 16 bytes each.
fn kinds_are_guids(customs: &[CustomValue])
    ensures { All (λ custom. IsGuid custom.kind) customs.now }
{
    for custom in customs {
        guid_is_long(custom.kind);
    }
}

/// A value has what the types of the code carry.
pub fn value_has_types(value: &FileValue)
    ensures { HasTypes value.now }
{
    documents_have_guids(value.documents.as_slice());
    scopes_are_narrow(value.scopes.as_slice());
    kinds_are_guids(value.customs.as_slice());
    let _id: &[u8] = &value.id;
    let _rows: &[u32] = &value.rows;
}
