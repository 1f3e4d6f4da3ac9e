// What is gathered of the second map, beside what it answers itself.
ghost use Rattle.std.specs.Prelude.{IfOk, OnOk};
ghost use Rattle.map_compose.specs.Gathered.{IsGatheredOf};

use crate::joined::JoinedRuns;
use crate::part::Part;
use crate::slot_blocks::SlotBlocks;
use ppdb_base::Memory;
use ppdb_maps::MapText;
use ppdb_maps_text::Counted;
use std::alloc::Global;

/// The runs of each method of a map in their longest form, and how long the lines of its slots are.
#[derive(Drop)]
pub struct Gathered {
    pub runs: JoinedRuns,
    pub slots: SlotBlocks,
}

impl Gathered {
    /// What is gathered of a map for a text that is kept.
    pub fn of(alloc: Global, map: &MapText) -> Result<Gathered, Memory>
        ensures { IfOk result (λ gathered. IsGatheredOf gathered map.now) }
    {
        let runs = JoinedRuns::of(alloc, map)?;
        let slots = SlotBlocks::new(alloc);
        Ok(Gathered { runs, slots })
    }

    /// Sums up what a part needs, once the text is too long to be kept.
    pub fn sum_up(&mut self, part: Part, map: &MapText, text: &Counted) -> Result<(), Memory>
        requires { IsGatheredOf self.now map.now }
        ensures { OnOk result (IsGatheredOf self.new map.now) }
    {
        let _ = map.facts();
        match part {
            Part::Drops | Part::Signatures => Ok(()),
            Part::Slots => self.slots.count(map, text),
            Part::Methods => self.runs.sum_up(text),
        }
    }
}
