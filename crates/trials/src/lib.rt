//! Trials of nets: tests alone, against a machine that plays small nets in every order of arrivals.

#![tactic(auto)]

#[cfg(test)]
mod calls;
#[cfg(test)]
mod graded;
#[cfg(test)]
mod histories;
#[cfg(test)]
mod net_a;
#[cfg(test)]
mod numbers;
#[cfg(test)]
mod reading;
#[cfg(test)]
mod replaying;
#[cfg(test)]
mod simulator;
#[cfg(test)]
mod standing;
#[cfg(test)]
mod worked;
#[cfg(test)]
mod writing;
