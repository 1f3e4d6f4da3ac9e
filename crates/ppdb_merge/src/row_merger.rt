// Inputs whose rows are moved and joined where the joined file is written, added one after the other.
ghost use Rattle.std.specs.Prelude.{◌≡◌, ◌≤◌, ◌<◌, ◌⊎◌, [], ◌∷◌, ◌++◌, Some, None, Ok, Err, OnOk, OnErr, IfOk, IfErr, List, length};
ghost use Rattle.ppdb_merge_meaning_laws.specs.Kept.{MovedBy, KeepsMeaning, joined_inputs};
ghost use Rattle.ppdb_merge_meaning_laws.specs.Origins.{KeepsOrigins};
ghost use Rattle.ppdb_base.specs.declared.merge_error.MergeError.TheVariants as merge_errors;
ghost use Rattle.ppdb_verify.specs.Views.{raw_file};
ghost use Rattle.ppdb_values_sound_laws.specs.Sound.{IsSound};
ghost use Rattle.ppdb_merge_rows.specs.Inputs.{moved_by, moved_inputs};
ghost use Rattle.ppdb_merge.specs.Kept.{AreInputs};
ghost use Rattle.ppdb_merge.specs.Refusals.{added, refusal_of};
ghost use Rattle.ppdb_merge.specs.Together.{joined_of, misfit_of};

use crate::joining::join_traces;
use crate::row_index::RowIndex;
use crate::row_joining::moved_again;
use crate::row_reading::read_rows;
use crate::row_trace::RowTrace;
use crate::together::misfit;
use custom_info::Marks;
use ppdb_base::{List, Memory, MergeError, Steps};
use ppdb_merge_fits::nothing_clashes;
use ppdb_merge_items::soundness_is_annotated;
use ppdb_merge_joined::joined_is_sound;
use ppdb_merge_names_laws::references_are_named;
use ppdb_merge_rows::RowInput;
use ppdb_values::FileValue;
use ppdb_values_sound_laws::values_are_sound;
use std::alloc::Global;
use std::marker::Model;
use std::sync::ledger::Ledger;

/// Files that are moved by their maps and joined into one, of which the rows are kept and no value. It is seen as the kinds that are marked
/// as free, what a `Merger` keeps of each input, and what each input says, with its map.
#[derive(Drop)]
pub struct RowMerger<'a> {
    alloc: Global,
    marks: Marks,
    inputs: List<RowInput<'a>>,
    /// What else is kept of each input.
    traces: List<RowTrace>,
    /// The index of all inputs, or of the first few.
    index: RowIndex,
}

impl<'a> Model for RowMerger<'a> {
    ghost use Rattle.ppdb_merge_rows.specs.Inputs.{moved_inputs};
    ghost use Rattle.ppdb_merge.specs.Rows.{AreKept, RowMerged, traces_in};

    ghost Value = { RowMerged };

    ghost view = { λ m. record { marks = m.marks; traces = traces_in m.inputs; inputs = moved_inputs m.inputs } };

    ghost invariant = { λ m. AreKept m.marks m.inputs m.traces m.index };
}

/// Puts an input and what else is kept of it after the others. After a refusal both lists are unchanged.
fn push_both<'a>(
    inputs: &mut List<RowInput<'a>>,
    traces: &mut List<RowTrace>,
    input: RowInput<'a>,
    trace: RowTrace,
) -> Result<(), Memory>
    ensures inputs { OnOk result (inputs.new ≡ inputs.old ++ input.entry ∷ []) }
    ensures traces { OnOk result (traces.new ≡ traces.old ++ trace ∷ []) }
    ensures same_inputs { OnErr result (inputs.new ≡ inputs.old) }
    ensures same_traces { OnErr result (traces.new ≡ traces.old) }
{
    let before = inputs.len();
    inputs.push(input)?;
    match traces.push(trace) {
        Ok(()) => Ok(()),
        Err(memory) => {
            inputs.truncate(before);
            Err(memory)
        }
    }
}

impl<'a> RowMerger<'a> {
    /// No input yet. It takes no memory.
    pub fn new(alloc: Global, marks: Marks) -> RowMerger<'a>
        ensures { result ≡ record { marks = marks; traces = []; inputs = [] } }
    {
        RowMerger {
            alloc,
            marks,
            inputs: List::new(alloc),
            traces: List::new(alloc),
            index: RowIndex::new(alloc),
        }
    }

    /// Adds an input. What is refused changes nothing.
    pub fn add<L: Ledger>(
        &mut self,
        input: RowInput<'a>,
        steps: &mut Steps<L>,
    ) -> Result<(), MergeError>
        requires { length self.old.traces < 256 }
        ensures added { OnOk result (added self.old.marks self.old.traces input.entry.map (raw_file input.entry.file) ≡ Ok self.new.traces) }
        ensures fits { OnOk result (refusal_of self.old.marks self.old.traces input.entry.map (raw_file input.entry.file) ≡ None) }
        ensures refused { IfErr result (λ e. (e ≡ merge_errors.Memory) ⊎ (refusal_of self.old.marks self.old.traces input.entry.map (raw_file input.entry.file) ≡ Some e)) }
        ensures unchanged { OnErr result (self.new ≡ self.old) }
        ensures marks { self.new.marks ≡ self.old.marks }
        ensures inputs { OnOk result (self.new.inputs ≡ self.old.inputs ++ moved_by input.entry ∷ []) }
    {
        let trace = read_rows(
            self.alloc,
            &input,
            &self.marks,
            self.inputs.as_slice(),
            self.traces.as_slice(),
            &mut self.index,
            steps,
        )?;
        push_both(&mut self.inputs, &mut self.traces, input, trace)?;
        Ok(())
    }

    /// What is reported of the inputs together: M8, or else M9.
    pub fn misfit(&self) -> Option<MergeError>
        ensures { result ≡ misfit_of self.now.traces }
    {
        misfit(self.traces.as_slice())
    }

    /// The inputs, to be joined row by row.
    pub fn inputs(&self) -> &[RowInput<'a>]
        ensures inputs { moved_inputs result.now ≡ self.now.inputs }
        ensures some { length result.now ≡ length self.now.traces }
        ensures most { length result.now ≤ 256 }
        ensures fit { AreInputs self.now.traces self.now.inputs }
        ensures sound { 1 ≤ length self.now.traces → misfit_of self.now.traces ≡ None → IsSound (joined_inputs self.now.inputs) }
        ensures joined { 1 ≤ length self.now.traces → misfit_of self.now.traces ≡ None → joined_of self.now.traces ≡ Ok (joined_inputs self.now.inputs) }
    {
        values_are_sound();
        soundness_is_annotated();
        references_are_named();
        nothing_clashes();
        joined_is_sound();
        self.inputs.as_slice()
    }

    /// The value of the joined file. The value of each input is made for it.
    pub fn finish<L: Ledger>(self, steps: &mut Steps<L>) -> Result<FileValue, MergeError>
        requires { 1 ≤ length self.traces }
        ensures joined { IfOk result (λ value. joined_of self.entry.traces ≡ Ok value) }
        ensures sound { IfOk result IsSound }
        ensures kept { IfOk result (λ value. (inputs : List MovedBy) → AreInputs self.entry.traces inputs → KeepsMeaning inputs value) }
        ensures origins { IfOk result (λ value. (inputs : List MovedBy) → AreInputs self.entry.traces inputs → KeepsOrigins inputs value) }
        ensures fits { OnOk result (misfit_of self.entry.traces ≡ None) }
        ensures refused { IfErr result (λ e. (e ≡ merge_errors.Memory) ⊎ (misfit_of self.entry.traces ≡ Some e)) }
    {
        let told = misfit(self.traces.as_slice());
        if let Some(told) = told {
            return Err(told);
        }
        let traces = moved_again(
            self.alloc,
            self.inputs.as_slice(),
            self.traces.as_slice(),
            steps,
        )?;
        Ok(join_traces(self.alloc, traces)?)
    }
}
