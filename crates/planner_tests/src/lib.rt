// Tests of the planner: both sides of every limit, the order of the checks, and long runs held against a model that is written from the rules alone.
#![tactic(auto)]

#[cfg(test)]
mod agreement;
#[cfg(test)]
mod answers;
#[cfg(test)]
mod buffers;
#[cfg(test)]
mod changes;
#[cfg(test)]
mod costs;
#[cfg(test)]
mod draws;
#[cfg(test)]
mod files;
#[cfg(test)]
mod loads;
#[cfg(test)]
mod models;
#[cfg(test)]
mod nets;
#[cfg(test)]
mod planners;
#[cfg(test)]
mod plans;
#[cfg(test)]
mod randoms;
#[cfg(test)]
mod reads;
#[cfg(test)]
mod samples;
#[cfg(test)]
mod searches;
#[cfg(test)]
mod standing;
