// Where the sizes of a method differ.
ghost use Rattle.std.specs.Prelude.{ℕ, MatchOption};
ghost use Rattle.map_compose.specs.Sizes.{SizesDiffer, IsFirstDiffering, SizesAgree};

use crate::image::image_of;
use ppdb_maps::MapText;

/// A method, its size after the first map, and its size before the second.
#[derive(Clone, Copy)]
pub struct Differing {
    pub method: u32,
    pub first: u32,
    pub second: u32,
}

/// The size of a method after the first map and before the second, where these differ.
fn difference(first: &MapText, second: &MapText, method: u32) -> Option<(u32, u32)>
    ensures { MatchOption result ((a b : ℕ) → SizesDiffer first.now second.now method a b → ⊥)
        (λ sizes. SizesDiffer first.now second.now method sizes.0 sizes.1) }
{
    let image = image_of(first, second, method)?;
    let (_, after) = first.method(method).sizes()?;
    let (before, _) = second.method(image).sizes()?;
    if after == before {
        None
    } else {
        Some((after, before))
    }
}

/// The least method whose sizes differ.
pub fn first_differing(first: &MapText, second: &MapText) -> Option<Differing>
    ensures { MatchOption result (SizesAgree first.now second.now)
        (λ found. IsFirstDiffering first.now second.now found.method found.first found.second) }
{
    let _ = first.facts();
    let mut index = 0;
    'methods: while let Some(method) = first.method_line(index) {
        if let Some((first, second)) = difference(first, second, method) {
            return Some(Differing {
                method,
                first,
                second,
            });
        }
        index += 1;
    }
    None
}
