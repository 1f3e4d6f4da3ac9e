// Inputs that are moved by their maps and joined, one after the other.
ghost use Rattle.std.specs.Prelude.{◌≡◌, ◌≤◌, ◌<◌, ◌⊎◌, [], Some, None, Ok, Err, OnOk, OnErr, IfOk, IfErr, List, length};
ghost use Rattle.ppdb_merge_meaning_laws.specs.Kept.{MovedBy, KeepsMeaning};
ghost use Rattle.ppdb_merge_meaning_laws.specs.Origins.{KeepsOrigins};
ghost use Rattle.ppdb_base.specs.declared.merge_error.MergeError.TheVariants as merge_errors;
ghost use Rattle.ppdb_verify.specs.Views.{raw_file};
ghost use Rattle.ppdb_values_sound_laws.specs.Sound.{IsSound};
ghost use Rattle.ppdb_merge.specs.Kept.{AreInputs};
ghost use Rattle.ppdb_merge.specs.Refusals.{added, refusal_of};
ghost use Rattle.ppdb_merge.specs.Together.{joined_of, misfit_of};

use crate::index::Index;
use crate::joining::join_traces;
use crate::reading::read_input;
use crate::together::misfit;
use crate::trace::Trace;
use custom_info::Marks;
use ppdb_base::{List, MergeError, Steps};
use ppdb_maps::MapText;
use ppdb_values::FileValue;
use ppdb_verify::Verified;
use std::alloc::Global;
use std::marker::Model;
use std::mem;
use std::sync::ledger::Ledger;

/// Files that are moved by their maps and joined into one. It is seen as the kinds that are marked as free, and what is kept of each
/// input.
#[derive(Drop)]
pub struct Merger {
    alloc: Global,
    marks: Marks,
    traces: List<Trace>,
    /// The index of all inputs, or of the first few.
    index: Index,
}

impl Model for Merger {
    ghost use Rattle.std.specs.Prelude.{◌≤◌, length, take};
    ghost use Rattle.ppdb_merge.specs.Indexes.{Indexes};
    ghost use Rattle.ppdb_merge.specs.Merged.{Merged};
    ghost use Rattle.ppdb_merge.specs.Sound.{SoundTraces};

    ghost Value = { Merged };

    ghost view = { λ m. record { marks = m.marks; traces = m.traces } };

    ghost invariant = { λ m. SoundTraces m.traces × (m.index.inputs ≤ length m.traces) × Indexes (take m.index.inputs m.traces) m.index };
}

impl Merger {
    /// No input yet. It takes no memory.
    pub fn new(alloc: Global, marks: Marks) -> Merger
        ensures { result ≡ record { marks = marks; traces = [] } }
    {
        Merger {
            alloc,
            marks,
            traces: List::new(alloc),
            index: Index::new(alloc),
        }
    }

    /// Adds an input: a file and its map. What is refused changes nothing.
    pub fn add<L: Ledger>(
        &mut self,
        file: &Verified<'_>,
        map: &MapText,
        steps: &mut Steps<L>,
    ) -> Result<(), MergeError>
        requires { length self.old.traces < 256 }
        ensures added { OnOk result (added self.old.marks self.old.traces map.now (raw_file file.now) ≡ Ok self.new.traces) }
        ensures fits { OnOk result (refusal_of self.old.marks self.old.traces map.now (raw_file file.now) ≡ None) }
        ensures refused { IfErr result (λ e. (e ≡ merge_errors.Memory) ⊎ (refusal_of self.old.marks self.old.traces map.now (raw_file file.now) ≡ Some e)) }
        ensures unchanged { OnErr result (self.new ≡ self.old) }
        ensures marks { self.new.marks ≡ self.old.marks }
    {
        let index = mem::replace(&mut self.index, Index::new(self.alloc));
        self.index = index.extended(self.traces.as_slice())?;
        let trace = read_input(
            self.alloc,
            file,
            map,
            &self.marks,
            self.traces.as_slice(),
            &self.index,
            steps,
        )?;
        self.traces.push(trace)?;
        Ok(())
    }

    /// The joined file.
    pub fn finish(self) -> Result<FileValue, MergeError>
        requires { 1 ≤ length self.traces }
        ensures joined { IfOk result (λ value. joined_of self.traces ≡ Ok value) }
        ensures sound { IfOk result IsSound }
        ensures kept { IfOk result (λ value. (inputs : List MovedBy) → AreInputs self.traces inputs → KeepsMeaning inputs value) }
        ensures origins { IfOk result (λ value. (inputs : List MovedBy) → AreInputs self.traces inputs → KeepsOrigins inputs value) }
        ensures fits { OnOk result (misfit_of self.traces ≡ None) }
        ensures refused { IfErr result (λ e. (e ≡ merge_errors.Memory) ⊎ (misfit_of self.traces ≡ Some e)) }
    {
        let told = misfit(self.traces.as_slice());
        if let Some(told) = told {
            return Err(told);
        }
        Ok(join_traces(self.alloc, self.traces)?)
    }
}
