//! Playing calls that are given as data.

ghost use Rattle.std.specs.Prelude.{◌≡◌, ℕ, [], length, is_ok, IfOk, if◌then◌else◌};
ghost use Rattle.nets.specs.Arrivals.{LongestInTurn};
ghost use Rattle.nets.specs.Asking.{looked_up};
ghost use Rattle.nets.specs.Calls.{answer_step, answers_after, column_after, plain_call, plain_calls, plain_of};
ghost use Rattle.nets.specs.Following.{Follows, LooksUpLongest, Makes};
ghost use Rattle.nets.specs.Nets.{net_wires};

use crate::call::{Answer, Call};
use crate::net::Net;
use algebras::algebra::Algebra;
use std::alloc::{AllocError, Global};

impl<L: Algebra> Net<L> {
    /// Plays a call with a column, and answers what the call answers.
    pub fn play(&mut self, column: &mut [L::Grade], call: Call) -> Answer
        ensures answer { result ≡ answer_step (net_wires self.old) (plain_call (length column.old) call.entry) }
        ensures makes { Makes L.Algebra self.old column.old self.new column.new (plain_call (length column.old) call.entry) }
    {
        match call {
            Call::PlaceInput { start, changes } => {
                Answer::Placed(self.place_input(column, start, changes))
            }
            Call::PlaceGate { kind, pins } => Answer::Placed(self.place_gate(column, kind, pins)),
            Call::Read(bytes) => Answer::Read(self.read(column, bytes)),
        }
    }
}

/// A net that calls were played on, and what each of them answered.
#[derive(Drop)]
pub struct Played<L: Algebra> {
    pub net: Net<L>,
    pub answers: Vec<Answer>,
}

/// Opens a net under an algebra and plays calls on it, refused ones among them, each with the column as the calls before left it.
pub fn replay<L: Algebra + Drop>(
    heap: Global,
    algebra: L,
    column: &mut [L::Grade],
    calls: &[Call],
) -> Result<Played<L>, AllocError>
    ensures answers { IfOk result (λ p. p.answers.items ≡ answers_after [] (plain_calls (length column.old) calls.now)) }
    ensures algebra { IfOk result (λ p. p.net.algebra ≡ algebra) }
    ensures column { column.new ≡ (if is_ok result then column_after L.Algebra algebra [] column.old (plain_calls (length column.old) calls.now) else column.old) }
    ensures follows { IfOk result (λ p. Follows L.Algebra p.net column.new (plain_calls (length column.old) calls.now)) }
    ensures looking_up { IfOk result (λ p. (w : ℕ) → LooksUpLongest L.Algebra algebra (plain_of (plain_calls (length column.old) calls.now)) (length column.old) w (looked_up L.Algebra p.net column.new w)) }
    ensures in_turn { IfOk result (λ p. LongestInTurn (plain_of (plain_calls (length column.old) calls.now))) }
{
    let mut net = Net::open(heap, algebra)?;
    let mut answers = Vec::with_capacity(heap, calls.len())?;
    for call in calls {
        let answer = net.play(column, *call);
        answers.push_reserved(answer);
    }
    Ok(Played { net, answers })
}
