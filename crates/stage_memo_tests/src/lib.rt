// Tests of the memo against the sheet's own figures.
#![tactic(auto)]

#[cfg(test)]
mod sweeps;
