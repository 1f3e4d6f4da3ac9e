// The GUIDs of a heap, each of which is kept once.
use ppdb_base::{Bytes, Memory};
use std::alloc::{AllocFailed, Global};
use std::collections::BTreeMap;
use std::collections::btree_map::Entry;
use std::marker::Model;

/// The GUIDs of a heap, each of which is kept once. Contracts see it as the list of its GUIDs.
#[derive(Drop)]
pub struct GuidHeap {
    /// In order of first use.
    guids: Vec<[u8; 16]>,
    /// Each GUID's number.
    numbers: BTreeMap<[u8; 16], u32>,
}

impl Model for GuidHeap {
    ghost use Rattle.std.specs.Prelude.{ℕ, List};
    ghost use Rattle.ppdb_build_heaps.specs.Guids.{AreNumbers};

    ghost Value = { List (List ℕ) };

    ghost view = { λ h. h.guids.items };

    ghost invariant = { λ h. AreNumbers h.guids.items h.numbers };
}

impl GuidHeap {
    ghost use Rattle.std.specs.Prelude.{◌≡◌, ◌+◌, ◌*◌, [], ◌++◌, length, flat_map, bytes_eq, min, OnOk, OnErr, IfOk};
    ghost use Rattle.std.specs.List.{position_or_len};
    ghost use Rattle.ppdb_base.specs.Told.{told};
    ghost use Rattle.ppdb_build_heaps.specs.Items.{with_use};

    /// A heap without GUIDs.
    pub fn new(alloc: Global) -> GuidHeap
        ensures { result ≡ [] }
    {
        GuidHeap {
            guids: Vec::new(alloc),
            numbers: BTreeMap::new(alloc),
        }
    }

    /// How many bytes the GUIDs take.
    pub fn len(&self) -> u64
        ensures { result ≡ told (16 * length self.now) }
    {
        (self.guids.len() as u64).saturating_mul(16)
    }

    /// Notes a use of a GUID, and answers its number, from 1. A number of 2 ^ 32 or more is reported as the greatest below.
    pub fn use_guid(&mut self, guid: &[u8; 16]) -> Result<u32, Memory>
        ensures guids { OnOk result (self.new ≡ with_use self.old guid.now) }
        ensures number { IfOk result (λ number. number ≡ min (1 + position_or_len (bytes_eq guid.now) (with_use self.old guid.now)) 0xffffffff) }
        ensures err { OnErr result (self.new ≡ self.old) }
    {
        let next = (self.guids.len() as u64).saturating_add(1).min(0xffff_ffff) as u32;
        match self.numbers.entry(*guid)? {
            Entry::Occupied(entry) => Ok(*entry.get()),
            Entry::Vacant(entry) => {
                self.guids.push(*guid)?;
                Ok(*entry.insert(next))
            }
        }
    }

    /// Appends the GUIDs, one after another.
    pub fn put(&self, into: &mut Bytes) -> Result<(), Memory>
        ensures { OnOk result (into.new ≡ into.old ++ flat_map (λ guid. guid) self.now) }
    {
        for guid in self.guids.as_slice() {
            into.append(guid)?;
        }
        Ok(())
    }
}
