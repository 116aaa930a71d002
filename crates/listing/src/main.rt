//! Lists a net: the cap and the records of standard input, as a line for each wire.

#![tactic(auto)]

mod fault;
mod list;
#[cfg(test)]
mod tests;
mod text;

use crate::list::{MOST, Report, list};
use std::io::{Read, Write};
use std::process::ExitCode;

fn main(rt: HostRuntime) -> anyhow::Result<ExitCode> {
    let mut input = Vec::new(rt.alloc());
    // No conversion of a `usize` to a `u64` is without loss on every machine, so there is no `From`.
    rt.stdin().take(MOST as u64 + 1).read_to_end(&mut input)?;
    let report = list(rt.alloc(), input.as_slice())?;
    rt.print(report.text())?;
    Ok(match report {
        Report::Listing(_) => ExitCode::SUCCESS,
        Report::Refusal(_) => ExitCode::FAILURE,
    })
}
