// What holds of the map of two maps.
ghost use Rattle.map_compose.specs.Laws.{RunsCompose};
ghost use Rattle.map_compose.specs.Composition.{ComposedComposes, ComposedIsReadable, NextComposes};
ghost use Rattle.map_compose.specs.Sizes.{SizesAreJudged};
ghost use Rattle.map_compose.specs.Worked.{WorkedComposed};

/// What runs of two rewritings keep, one after the other, and that joined runs keep the same.
pub fn runs_compose()
    ensures { RunsCompose }
{}

/// The map of two maps answers each question as the second map does of what the first answers.
pub fn composed_composes()
    ensures { ComposedComposes }
{}

/// The map of two readable maps whose sizes agree is readable.
pub fn composed_is_readable()
    ensures { ComposedIsReadable }
{}

/// The next image of the next image, at kept offsets, and where the second map keeps nothing but
/// images of the first.
pub fn next_composes()
    ensures { NextComposes }
{}

/// The worked maps and their texts.
pub fn worked_maps()
    ensures { WorkedComposed }
{}

/// The sizes of two maps agree, or there is a first method that differs, which is one.
pub fn sizes_are_judged()
    ensures { SizesAreJudged }
{}
