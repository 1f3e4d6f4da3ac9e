// Runs that go on are one: a run is held back until the next does not go on where it ends.
ghost use Rattle.std.specs.Prelude.{◌≡◌, ◌<◌, ◌^◌, [], ◌∷◌, OnOk, map, option_to_list};
ghost use Rattle.ppdb_base.specs.Offsets.{end_of};
ghost use Rattle.ppdb_maps.specs.declared.line.Line.TheVariants.{Kept};
ghost use Rattle.map_compose.specs.Runs.{goes_on as continues};
ghost use Rattle.map_compose.specs.Says.{PutsLines};
ghost use Rattle.map_compose.specs.Joining.{Joins, JoinsOne, EndsAlike, HoldsEnd};

use ppdb_base::{Memory, Run};
use ppdb_maps_text::Counted;

/// What is given up and what is held back after one more run.
#[derive(Clone, Copy)]
pub struct Step {
    pub given: Option<Run>,
    pub held: Run,
}

/// Whether a run goes on where another ends, on both sides.
fn goes_on(run: Run, next: Run) -> bool
    ensures { result ≡ continues run next }
{
    let length = u64::from(run.length);
    u64::from(run.old) + length == u64::from(next.old)
        && u64::from(run.new) + length == u64::from(next.new)
}

/// Takes one more run.
pub fn join(held: Option<Run>, run: Run) -> Step
    requires { end_of run < 2 ^ 32 }
    ensures joins { JoinsOne held result.held result.given run }
    ensures ends { EndsAlike result.held run }
{
    match held {
        None => Step {
            given: None,
            held: run,
        },
        Some(last) if goes_on(last, run) => Step {
            given: None,
            held: Run {
                old: last.old,
                new: last.new,
                length: last.length + run.length,
            },
        },
        Some(last) => Step {
            given: Some(last),
            held: run,
        },
    }
}

/// Puts the line of a run, where there is one.
pub fn put_held(held: Option<Run>, text: &mut Counted) -> Result<(), Memory>
    ensures { OnOk result (PutsLines text.old text.new (map Kept (option_to_list held))) }
{
    match held {
        None => Ok(()),
        Some(run) => text.put_run(&run),
    }
}

/// Takes one more run, and puts the line of a run that is given up.
pub fn put_joined(held: &mut Option<Run>, run: Run, text: &mut Counted) -> Result<(), Memory>
    requires { end_of run < 2 ^ 32 }
    ensures joins { OnOk result (Joins held.old held.new text.old text.new (run ∷ [])) }
    ensures ends { OnOk result (HoldsEnd held.new run) }
{
    let step = join(*held, run);
    put_held(step.given, text)?;
    *held = Some(step.held);
    Ok(())
}
