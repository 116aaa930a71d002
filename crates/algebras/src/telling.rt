//! Algebras that also tell the start, the end and a verdict.

ghost use Rattle.std.specs.Prelude.{◌≡◌, Bool};
ghost use Rattle.algebras.specs.Transient.{Transient, end_of};
ghost use Rattle.algebras.specs.Verdicts.{verdict_of};
ghost use Rattle.algebras.specs.declared.verdict.Verdict.{Verdict as Told};

use crate::algebra::Algebra;
use crate::verdict::Verdict;

/// A telling algebra: what its grades tell is what the transients with these grades have in common.
pub trait Telling: Algebra {
    ghost starts: { Self → Self.Grade → Bool };

    ghost ends: { Self → Self.Grade → Bool };

    ghost verdicts: { Self → Self.Grade → Told };

    /// The start: that of every transient with this grade.
    fn start(&self, x: Self::Grade) -> bool
        ensures value { result ≡ starts self.now x }
        ensures told { (t : Transient) → x ≡ Self.Algebra.grade self.now t → result ≡ t.start };

    /// The end: that of every transient with this grade.
    fn end(&self, x: Self::Grade) -> bool
        ensures value { result ≡ ends self.now x }
        ensures told { (t : Transient) → x ≡ Self.Algebra.grade self.now t → result ≡ end_of t };

    /// The verdict: that of every transient with this grade.
    fn verdict(&self, x: Self::Grade) -> Verdict
        ensures value { result ≡ verdicts self.now x }
        ensures told { (t : Transient) → x ≡ Self.Algebra.grade self.now t → result ≡ verdict_of t };
}
