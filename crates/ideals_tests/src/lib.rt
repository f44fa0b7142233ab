// Tests of the list of ideals, with tables around the length that it needs.
#![tactic(auto)]

#[cfg(test)]
mod lists;
