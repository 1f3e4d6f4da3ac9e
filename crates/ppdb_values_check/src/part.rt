// Parts of a value that are sound or not by themselves.
ghost use Rattle.std.specs.Prelude.{◌↔◌, All, IsTrue};
ghost use Rattle.ppdb_values.specs.declared.file.FileValue.{FileValue};
ghost use Rattle.ppdb_values.specs.Ordered.{EachRow};

use crate::counts::Counted;

/// A part of a value that is sound or not by itself.
pub(crate) trait Part {
    /// The part is sound in the value.
    ghost sound: { FileValue → Self → Type 0 };

    /// Whether the part is sound in the value.
    fn is_sound(&self, counted: &Counted<'_>) -> bool
        ensures { IsTrue result ↔ sound counted.now self.now };
}

/// Whether each part is sound.
pub(crate) fn all_sound<T: Part>(parts: &[T], counted: &Counted<'_>) -> bool
    ensures all { IsTrue result ↔ All (T.sound counted.now) parts.now }
    ensures rows { IsTrue result ↔ EachRow (T.sound counted.now) parts.now }
{
    for part in parts {
        if !part.is_sound(counted) {
            return false;
        }
    }
    true
}
