// What is looked up of the inputs before a further one.
ghost use Rattle.std.specs.Prelude.{◌≡◌, List, [], ◌∷◌, ◌++◌, ◌+◌, ◌-◌, ◌<◌, ◌≤◌, ◌^◌, OnOk, IfOk, length, take, slice_get};
ghost use Rattle.ppdb_merge.specs.Refusals.{clashes_before, documents_differ, methods_taken};
ghost use Rattle.ppdb_merge.specs.Indexes.{Indexes};
ghost use Rattle.ppdb_merge.specs.declared.trace.Trace.{Trace as trace_value};

use crate::documents::Documents;
use crate::links::first_link_differing;
use crate::methods::Methods;
use crate::trace::Trace;
use ppdb_base::{Memory, MergeError};
use ppdb_maps::MapText;
use ppdb_merge_names::Imaged;
use ppdb_values::{DocumentValue, FileValue};
use std::alloc::Global;

/// The methods and the documents of inputs, to be looked up by image and by name.
#[derive(Drop)]
pub(crate) struct Index {
    /// How many inputs.
    pub(crate) inputs: u32,
    pub(crate) methods: Methods,
    pub(crate) documents: Documents,
}

impl Index {
    /// The index of no input. It takes no memory.
    pub(crate) fn new(alloc: Global) -> Index
        ensures { Indexes [] result }
    {
        Index {
            inputs: 0,
            methods: Methods::new(alloc),
            documents: Documents::new(alloc),
        }
    }

    /// Adds an input.
    fn add(&mut self, trace: &Trace) -> Result<(), Memory>
        requires { self.old.inputs + 1 < 2 ^ 32 }
        ensures inputs { OnOk result (self.new.inputs ≡ self.old.inputs + 1) }
        ensures holds { OnOk result ((traces : List trace_value) → Indexes traces self.old → Indexes (traces ++ trace.now ∷ []) self.new) }
    {
        let input = self.inputs + 1;
        self.methods.add(input, trace.rows.as_slice())?;
        self.documents.add(trace.moved.documents())?;
        self.inputs = input;
        Ok(())
    }

    /// The index of all inputs: those that are not in it yet are added.
    pub(crate) fn extended(self, traces: &[Trace]) -> Result<Index, Memory>
        requires within { self.inputs ≤ length traces.now }
        requires few { length traces.now < 2 ^ 32 - 1 }
        ensures { IfOk result (λ index. Indexes (take self.inputs traces.now) self → Indexes traces.now index) }
    {
        let mut index = self;
        let mut place = index.inputs as usize;
        'inputs: while place < traces.len() {
            index.add(&traces[place])?;
            place += 1;
        }
        Ok(index)
    }

    /// Why a further input, which names these rows and has these documents, does not fit the inputs.
    fn clash(
        &self,
        map: &MapText,
        rows: &[Imaged],
        documents: &[DocumentValue],
    ) -> Option<MergeError>
        requires { length documents.now < 2 ^ 32 - 1 }
        ensures { (traces : List trace_value) → Indexes traces self.now
            → result ≡ slice_get (methods_taken traces rows.now ++ documents_differ traces map.now documents.now) 0 }
    {
        let taken = self.methods.first_taken(rows);
        if taken.is_some() {
            return taken;
        }
        self.documents.first_conflict(map, documents)
    }
}

/// Why a further input, which names these rows, does not fit the inputs of which this is the index.
pub(crate) fn clash_before(
    index: &Index,
    traces: &[Trace],
    map: &MapText,
    rows: &[Imaged],
    value: &FileValue,
) -> Option<MergeError>
    requires indexes { Indexes traces.now index.now }
    requires documents { length value.now.documents < 2 ^ 32 - 1 }
    requires customs { length value.now.customs < 2 ^ 32 - 1 }
    ensures { result ≡ slice_get (clashes_before traces.now map.now rows.now value.now) 0 }
{
    let told = index.clash(map, rows, value.documents.as_slice());
    if told.is_some() {
        return told;
    }
    first_link_differing(traces, map, value.customs.as_slice())
}
