//! The theory of one gate that hears, carried by a function that does nothing else.

ghost use Rattle.algebras.specs.Hearing.{LongestWordOfAGate};

/// The transient of a gate is the longest word that its output can put out, whatever arrives at its pins.
pub fn longest_word_of_a_gate()
    ensures { LongestWordOfAGate }
{}
