//! Promises about day files that a caller may cite; each function does nothing and carries one in its contract.
ghost use Rattle.records.specs.Laws.{WritesWhatStood, OneStands, NoneStands};

/// What is read and written again is the same bytes.
pub fn what_is_read_is_written_back()
    ensures same { WritesWhatStood }
{}

/// At each place stands at most one record, and none where the reader refuses.
pub fn a_place_has_one_record()
    ensures one { OneStands }
    ensures none { NoneStands }
{}
