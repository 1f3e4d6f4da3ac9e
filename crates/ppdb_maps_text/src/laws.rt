// What holds of the canonical text of every map, and of every text.
ghost use Rattle.ppdb_maps_text.specs.Laws.{TextsAreJudged, TextsAreRead};

/// The canonical text of a map is read as this map.
pub fn texts_are_read()
    ensures { TextsAreRead }
{}

/// Each text has a map or a refused line.
pub fn texts_are_judged()
    ensures { TextsAreJudged }
{}
