// What the pairs of a record and the choice among them come to.
ghost use Rattle.source_link.specs.Laws.{ChoiceIsBest, OrderIsFree};

/// The pair that is chosen is the best of those that match.
pub fn choice_is_best()
    ensures { ChoiceIsBest }
{}

/// The keys of a record differ, and so a name has the same address however the pairs stand.
pub fn order_is_free()
    ensures { OrderIsFree }
{}
