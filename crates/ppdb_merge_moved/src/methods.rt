// Sequence points, moved in their places.
ghost use Rattle.std.specs.Prelude.{◌≡◌, ◌≤◌, take, drop, length};
ghost use Rattle.ppdb_base.specs.Offsets.{old_size};
ghost use Rattle.sequence_points.specs.MovedPoints.{first_offset, moved_points};

use crate::moves::Stays;
use crate::offsets::moved_offset;
use ppdb_base::{List, OffsetImage};
use ppdb_maps::MapText;
use ppdb_tables::METHOD_DEF;
use ppdb_values::MethodValue;
use sequence_points::Point;

/// The offset of the point at a place, or the greatest number past the last.
fn offset_at(points: &[Point], place: usize) -> u32
    ensures { result ≡ first_offset 4294967295 (drop place points.now) }
{
    match points.get(place) {
        Some(point) => point.offset,
        None => u32::MAX,
    }
}

/// Moves the points that are kept to the start, in order, and answers how many these are.
fn move_prefix<G: OffsetImage>(points: &mut [Point], image: &G) -> usize
    requires { old_size (G.offsets image.now) ≤ 4294967295 }
    ensures within { result ≤ length points.new }
    ensures moved { take result points.new ≡ moved_points (G.offsets image.now) points.old }
{
    let mut stay = 0;
    for place in 0..points.len() {
        let point = points[place];
        if image.kept_between(point.offset, offset_at(points, place + 1)) {
            points[stay] = Point {
                offset: moved_offset(image, point.offset),
                ..point
            };
            stay += 1;
        }
    }
    stay
}

/// Moves the points that are kept; the others are removed.
pub fn move_points<G: OffsetImage>(points: &mut List<Point>, image: &G)
    requires { old_size (G.offsets image.now) ≤ 4294967295 }
    ensures { points.new ≡ moved_points (G.offsets image.now) points.old }
{
    let stay = move_prefix(points.as_mut_slice(), image);
    points.truncate(stay);
}

/// A method is kept where a point of it is.
impl Stays<MapText> for MethodValue {
    ghost use Rattle.ppdb_merge_moved.specs.Moved.{moved_method};

    ghost stays = { moved_method };

    fn stay_by(mut self, map: &MapText) -> Option<MethodValue> {
        let _ = map.facts();
        move_points(&mut self.points, &map.method(self.method));
        if self.points.is_empty() {
            return None;
        }
        self.signature = map.moved_signature(self.method, self.signature);
        self.method = map.moved_row(METHOD_DEF, self.method);
        Some(self)
    }
}
