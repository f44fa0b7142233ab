// Tests of sheets and sheet files: both sides of every limit, every refusal, and the order of the checks.
#![tactic(auto)]

#[cfg(test)]
mod faults;
#[cfg(test)]
mod files;
#[cfg(test)]
mod round_trips;
mod samples;
#[cfg(test)]
mod sheets;
