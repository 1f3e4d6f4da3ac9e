// The rules of map texts.
ghost use Rattle.std.specs.Prelude.{◌≡◌};
ghost use Rattle.ppdb_maps.specs.Rules.{kind_of};

/// The rules that a line may break.
#[derive(Clone, Copy)]
pub enum Rule {
    /// Line 1 names the format and its version.
    FirstLine,
    /// The first word and the number of words are those of a form of the version.
    UnknownForm,
    /// Each value is spelled as it should be, and is in its range.
    NumberFaults,
    /// Nothing is said twice.
    Repeated,
    /// A `row` has a `rows` of its table before it, a `slot` a `slots` of its method.
    Undeclared,
    /// A `run` follows its `method`.
    NoMethod,
    /// A `run` begins on both sides not before the end of the run before it.
    Overlap,
    /// A `run` ends on both sides within the sizes.
    Beyond,
    /// A dropped method has no other lines.
    NamesDropped,
}

impl Rule {
    /// The rule's number, 1 to 9.
    pub fn kind(self) -> u8
        ensures { result ≡ kind_of self }
    {
        match self {
            Rule::FirstLine => 1,
            Rule::UnknownForm => 2,
            Rule::NumberFaults => 3,
            Rule::Repeated => 4,
            Rule::Undeclared => 5,
            Rule::NoMethod => 6,
            Rule::Overlap => 7,
            Rule::Beyond => 8,
            Rule::NamesDropped => 9,
        }
    }
}
