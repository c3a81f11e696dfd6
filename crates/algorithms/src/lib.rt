// algorithms.rs: the link's figures, each with no knowledge of a peer or a node. Times come in as numbers.

#![tactic(auto)]

pub mod jitter; // jitter.rt: interarrival jitter
pub mod srtt; // srtt.rt: smoothed round trip
pub mod ewma; // ewma.rt: a short and a long trend
pub mod owd; // owd.rt: one-way delay trend
mod passes; // passes.rt: the two passes over a delay window
pub mod etx; // etx.rt: expected transmission count, quality index
pub mod spin; // spin.rt: round trips from the spin bit
