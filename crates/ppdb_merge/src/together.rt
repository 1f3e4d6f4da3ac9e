// Why the inputs do not fit each other as a whole.
ghost use Rattle.std.specs.Prelude.{◌≡◌, ◌∷◌, ◌-◌, ◌<◌, ◌^◌, length, map, slice_get};
ghost use Rattle.std.specs.List.{enumerate_from, filter_map};
ghost use Rattle.ppdb_merge.specs.Together.{above, count_in, differs, images_above, misfit_of, rows_differ};

use crate::trace::Trace;
use ppdb_base::MergeError;
use ppdb_merge_names::Imaged;
use ppdb_tables::TYPE_TABLES;

/// What counts the output's rows and names images, as an input does.
pub(crate) trait Counted {
    ghost use Rattle.std.specs.Prelude.{◌≡◌};
    ghost use Rattle.ppdb_merge.specs.declared.trace.Trace.{Trace};

    /// An input with these counts and images.
    ghost trace: { Self → Trace };

    /// The rows of each table in the output.
    fn counts(&self) -> &[u32; 64]
        ensures { result.now ≡ (trace self.now).moved.rows };

    /// The rows that are named, with their images.
    fn images(&self) -> &[Imaged]
        ensures { result.now ≡ (trace self.now).rows };
}

impl Counted for Trace {
    ghost trace = { λ trace. trace };

    fn counts(&self) -> &[u32; 64] {
        self.moved.rows()
    }

    fn images(&self) -> &[Imaged] {
        self.rows.as_slice()
    }
}

/// The rows of a table in the output, as an input has it.
fn count<T: Counted>(trace: &T, table: u8) -> u32
    requires { table < 64 }
    ensures { result ≡ count_in (T.trace trace.now) table }
{
    trace.counts()[table as usize]
}

/// What is reported of a table that an input counts otherwise than the first.
fn differs<T: Counted>(first: &T, table: u8, input: u32, other: &T) -> Option<MergeError>
    requires { table < 64 }
    ensures { result ≡ differs (T.trace first.now) table (input, T.trace other.now) }
{
    let (first, second) = (count(first, table), count(other, table));
    if first == second {
        return None;
    }
    Some(MergeError::RowsDiffer {
        input,
        table,
        first,
        second,
    })
}

/// What is reported first of a table of the inputs after the first.
fn first_differing<T: Counted>(first: &T, others: &[T], table: u8) -> Option<MergeError>
    requires low { table < 64 }
    requires few { length others.now < 2 ^ 32 - 2 }
    ensures { result ≡ slice_get (filter_map (differs (T.trace first.now) table) (enumerate_from 2 (map T.trace others.now))) 0 }
{
    let mut input = 2;
    for other in others {
        let told = differs(first, table, input, other);
        if told.is_some() {
            return told;
        }
        input += 1;
    }
    None
}

/// What is reported first of the inputs' row counts.
fn rows_differ<T: Counted>(first: &T, others: &[T]) -> Option<MergeError>
    requires { length others.now < 2 ^ 32 - 2 }
    ensures { result ≡ slice_get (rows_differ (T.trace first.now ∷ map T.trace others.now)) 0 }
{
    for table in 0..TYPE_TABLES {
        let told = first_differing(first, others, table);
        if told.is_some() {
            return told;
        }
    }
    None
}

/// What is reported of a row whose image is above the rows of the image's table.
fn above<T: Counted>(input: u32, trace: &T, imaged: &Imaged) -> Option<MergeError>
    ensures { result ≡ above (input, T.trace trace.now) imaged.now }
{
    let Imaged {
        table,
        row,
        to,
        image,
    } = *imaged;
    let rows = *trace.counts().get(to as usize).unwrap_or(&0);
    if image <= rows {
        return None;
    }
    Some(MergeError::ImageRange {
        input,
        table,
        row,
        image,
        rows,
    })
}

/// What is reported first of an input's images.
fn first_above<T: Counted>(input: u32, trace: &T) -> Option<MergeError>
    ensures { result ≡ slice_get (filter_map (above (input, T.trace trace.now)) (T.trace trace.now).rows) 0 }
{
    for imaged in trace.images() {
        let told = above(input, trace, imaged);
        if told.is_some() {
            return told;
        }
    }
    None
}

/// What is reported first of the images of all inputs.
fn images_above<T: Counted>(traces: &[T]) -> Option<MergeError>
    requires { length traces.now < 2 ^ 32 - 1 }
    ensures { result ≡ slice_get (images_above (map T.trace traces.now)) 0 }
{
    let mut input = 1;
    for trace in traces {
        let told = first_above(input, trace);
        if told.is_some() {
            return told;
        }
        input += 1;
    }
    None
}

/// What is reported of inputs together: M8, or else M9.
pub(crate) fn misfit<T: Counted>(traces: &[T]) -> Option<MergeError>
    requires { length traces.now < 2 ^ 32 - 1 }
    ensures { result ≡ misfit_of (map T.trace traces.now) }
{
    let Some((first, others)) = traces.split_first() else {
        return None;
    };
    let told = rows_differ(first, others);
    if told.is_some() {
        return told;
    }
    images_above(traces)
}
