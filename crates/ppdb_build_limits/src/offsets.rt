// The limit that the offsets of points report: L3.
ghost use Rattle.std.specs.Prelude.{◌≡◌};
ghost use Rattle.std.specs.List.{filter_map};
ghost use Rattle.sequence_points.specs.Written.{first_of};
ghost use Rattle.ppdb_build_canon.specs.Limits.{large_offset};

use ppdb_base::Limit;
use ppdb_values::MethodValue;

/// The first offset of a method's points that has no form.
fn offset_in(method: &MethodValue) -> Option<Limit>
    ensures { result ≡ large_offset method.now }
{
    let points = method.points.as_slice();
    match points.iter().find(|point| point.offset >= 0x2000_0000) {
        Some(point) => Some(Limit::PointOffset {
            method: method.method,
            offset: point.offset,
        }),
        None => None,
    }
}

/// L3: the first offset that has no form, over all methods.
pub fn offset_limit(methods: &[MethodValue]) -> Option<Limit>
    ensures { result ≡ first_of (filter_map large_offset methods.now) }
{
    for method in methods {
        match offset_in(method) {
            Some(limit) => return Some(limit),
            None => {}
        }
    }
    None
}
