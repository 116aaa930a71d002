//! Listing the net that an input holds.

ghost use Rattle.std.specs.Prelude.{◌≡◌, ◌≤◌, false, length, is_some, IfOk, Some, None, MatchResult};
ghost use Rattle.listing.specs.Listing.{ListsLongest, cap_in, early_refusal, list_refusal, listing_text, read_in};
ghost use Rattle.listing.specs.Reports.{is_refusal, report_text};
ghost use Rattle.listing.specs.Texts.{InputListed, InputTold, RecordsListed, RecordsTold};

use crate::fault::{Fault, ListFault};
use crate::text::Kept;
use algebras::algebra::Algebra;
use algebras::counted::Counted;
use algebras::counted::grade::CountedGrade;
use nets::call::{Answer, Call};
use nets::net::play::replay;
use std::alloc::{AllocError, Global};

/// The most bytes that an input may have.
pub const MOST: usize = 16384;

/// What is printed for an input: its listing, or the line of its refusal.
// No `Result`: both cases are texts to be printed, and neither ends a caller's work.
#[derive(Drop)]
pub enum Report {
    Listing(String),
    Refusal(String),
}

impl Report {
    /// The text that is printed.
    pub fn text(&self) -> &str
        ensures { result.now ≡ report_text self.now }
    {
        match self {
            Report::Listing(text) | Report::Refusal(text) => text.as_str(),
        }
    }
}

// The algebra with the cap that an input begins with.
fn algebra_of(input: &[u8]) -> Result<Counted, ListFault>
    ensures { MatchResult result (λ a. (early_refusal input.now ≡ None) × (a.«cap» ≡ cap_in input.now) × (2 ≤ length input.now)) (λ f. early_refusal input.now ≡ Some f) }
{
    if input.len() > MOST {
        return Err(ListFault::TooLong);
    }
    if input.len() < 2 {
        return Err(ListFault::NoCap);
    }
    let cap = u16::from_le_bytes([input[0], input[1]]);
    Ok(Counted::new(cap)?)
}

// The text of the net that records hold.
fn records_text(
    heap: Global,
    algebra: Counted,
    column: &mut [CountedGrade],
    records: &[u8],
) -> Result<String, Fault>
    ensures told { RecordsTold result algebra.«cap» (length column.old) records.now }
    ensures longest { RecordsListed result algebra.«cap» (length column.old) records.now }
{
    let played = replay(heap, algebra, column, &[Call::Read(records)])?;
    let [Answer::Read(read)] = played.answers.as_slice() else {
        unreachable!()
    };
    (*read)?;
    let kept = Kept {
        algebra: &algebra,
        net: &played.net,
        column,
    };
    Ok(kept.text(heap)?)
}

// The text of the net that an input holds.
fn input_text(heap: Global, input: &[u8]) -> Result<String, Fault>
    ensures told { InputTold result input.now }
    ensures longest { InputListed result input.now }
{
    let algebra = algebra_of(input)?;
    let blank = algebra.drive(false, 0);
    let mut column = vec![in heap; blank; 512]?;
    records_text(heap, algebra, column.as_mut_slice(), &input[2..])
}

/// Reports on an input: its listing, or the line of its refusal.
pub fn list(heap: Global, input: &[u8]) -> Result<Report, AllocError>
    ensures text { IfOk result (λ r. report_text r ≡ listing_text input.now) }
    ensures refused { IfOk result (λ r. is_refusal r ≡ is_some (list_refusal input.now)) }
    ensures longest { IfOk result (λ r. (is_refusal r ≡ false → ListsLongest (cap_in input.now) (read_in input.now).wires (report_text r))) }
{
    match input_text(heap, input) {
        Ok(text) => Ok(Report::Listing(text)),
        Err(Fault::Memory) => Err(AllocError),
        Err(Fault::Refused(fault)) => {
            let line = format!(in heap; "{fault}")?;
            Ok(Report::Refusal(line))
        }
    }
}
