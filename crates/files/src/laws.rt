//! A promise about day files that a caller may cite.
ghost use Rattle.files.specs.Laws.{SplitsOneWay};

/// Two lists of records with the same bytes are the same list. It does nothing: the promise is its contract.
pub fn a_file_splits_one_way()
    ensures one_way { SplitsOneWay }
{}
