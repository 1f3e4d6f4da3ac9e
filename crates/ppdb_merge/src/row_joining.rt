// Inputs whose rows are read again, joined by their values.
ghost use Rattle.std.specs.Prelude.{◌≡◌, IfOk};
ghost use Rattle.ppdb_merge.specs.Rows.{row_traces, traces_in};
ghost use Rattle.ppdb_merge.specs.Sound.{SoundTraces};

use crate::row_trace::RowTrace;
use crate::trace::Trace;
use ppdb_base::{List, Memory, Steps};
use ppdb_merge_kept::KeptFile;
use ppdb_merge_rows::RowInput;
use ppdb_values_reading::value_of;
use std::alloc::Global;
use std::sync::ledger::Ledger;

/// What a merger of values keeps of the inputs.
pub(crate) fn moved_again<L: Ledger>(
    alloc: Global,
    inputs: &[RowInput<'_>],
    traces: &[RowTrace],
    steps: &mut Steps<L>,
) -> Result<List<Trace>, Memory>
    requires sound { SoundTraces (traces_in inputs.now) }
    requires traces { traces.now ≡ row_traces inputs.now }
    ensures { IfOk result (λ again. again ≡ traces_in inputs.now) }
{
    let mut again = List::with_capacity(alloc, inputs.len())?;
    let mut place = 0;
    'inputs: while place < inputs.len() {
        let input = &inputs[place];
        let trace = &traces[place];
        let value = value_of(alloc, &input.file, steps)?;
        let moved = KeptFile::moved(alloc, value, &input.map)?;
        let rows = List::copied(alloc, trace.rows.as_slice())?;
        again.push(Trace { moved, rows })?;
        place += 1;
    }
    Ok(again)
}
