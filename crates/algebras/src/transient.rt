//! The theory of transients, carried by functions that do nothing else.

ghost use Rattle.algebras.specs.Sums.{SumsOfTransients};
ghost use Rattle.algebras.specs.Transient.{TransientsAreWords};

/// Transients, kept as start and changes, are the words whose neighbours differ.
pub fn transients_are_words()
    ensures { TransientsAreWords }
{}

/// Sums, products and exclusive sums are joined two by two, and follow their Boolean functions.
pub fn sums_of_transients()
    ensures { SumsOfTransients }
{}
