// The values of samples.
ghost use Rattle.std.specs.Prelude.{◌≤◌};

use ppdb_base::Memory;
use ppdb_build_sample::sample_value;
use std::alloc::Global;

/// How many methods the tables of a sample count, and how many methods, documents, scopes and hoisted locals it has.
fn parts_of(alloc: Global, n: u32) -> Result<[usize; 5], Memory>
    requires { n ≤ 100000 }
{
    match sample_value(alloc, n) {
        Ok(value) => Ok([
            value.rows[0x06] as usize,
            value.methods.len(),
            value.documents.len(),
            value.scopes.len(),
            value.customs.len(),
        ]),
        Err(error) => Err(error),
    }
}

#[test]
fn samples_have_their_parts(rt: HostRuntime) -> Result<(), Memory> {
    // methods, documents, scopes, hoisted locals
    for (n, documents, scopes, hoisted) in [
        (0, 0, 0, 0),
        (1, 1, 2, 0),
        (2, 1, 4, 0),
        (9, 2, 18, 2),
    ] {
        let methods = n as usize;
        assert_eq!(rt;
            parts_of(rt.alloc(), n)?,
            [methods, methods, documents, scopes, hoisted]
        );
    }
    Ok(())
}
