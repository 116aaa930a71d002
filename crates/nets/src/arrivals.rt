//! The theory of arrivals in nets, carried by functions that do nothing else.

ghost use Rattle.nets.specs.Histories.{LongestHistories};
ghost use Rattle.nets.specs.Rows.{AllHold, worked_rows};

/// In every plain net of calls, whose pins name lower wires, some order of arrivals serves the gates one after another and gives each
/// wire its longest history, which is the word of its transient.
pub fn longest_histories()
    ensures { LongestHistories }
{}

/// The worked rows follow from the definitions, all together.
pub fn worked_rows()
    ensures { AllHold worked_rows }
{}
