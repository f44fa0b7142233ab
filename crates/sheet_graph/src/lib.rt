// A network with the stages of its split, as a graph for Graphviz.
#![tactic(auto)]

mod clusters;
mod edges;
mod graphs;
mod nodes;

pub use graphs::{draw, draw_file};
