// Tests of texts, of the sheet files that are made of them, and of graphs: both sides of every limit, every error, and what comes first.
#![tactic(auto)]

#[cfg(test)]
mod faults;
#[cfg(test)]
mod files;
#[cfg(test)]
mod graphs;
#[cfg(test)]
mod sheets;
#[cfg(test)]
mod texts;
