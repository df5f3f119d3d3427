//! What writing a tree and reading it have to do with one another: laws, each the contract of a
//! call that does nothing.
ghost use Rattle.oxt_json.specs.Laws.{DataReadsBack, TextReadsBack, NumberingChangesNumbers, DataTellsTrees, TextTellsTrees};

/// The data of a valid tree reads as the tree itself, numbered anew.
pub fn data_reads_back()
    ensures { DataReadsBack }
{}

/// What is written of a valid tree spells the tree itself, numbered anew, where it nests no deeper
/// than a reader goes.
pub fn text_reads_back()
    ensures { TextReadsBack }
{}

/// Numbering the nodes of a document anew changes numbers alone.
pub fn numbering_changes_numbers()
    ensures { NumberingChangesNumbers }
{}

/// Valid trees with the same data differ in the numbers of their nodes alone.
pub fn data_tells_trees()
    ensures { DataTellsTrees }
{}

/// Valid trees that are written alike differ in the numbers of their nodes alone.
pub fn text_tells_trees()
    ensures { TextTellsTrees }
{}
