// Tests of finding a least split: against a brute force, with tables of every length, and at values known by hand.
#![tactic(auto)]

#[cfg(test)]
mod agreement;
#[cfg(test)]
mod brute_force;
#[cfg(test)]
mod costs;
#[cfg(test)]
mod drafts;
#[cfg(test)]
mod extremes;
#[cfg(test)]
mod known;
#[cfg(test)]
mod loose;
#[cfg(test)]
mod peaks;
#[cfg(test)]
mod randoms;
#[cfg(test)]
mod sheets;
#[cfg(test)]
mod tables;
