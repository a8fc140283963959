//! The engines over readers and writers that handle few octets at a time, or fail: what no contract and no row covers.

mod bounds;
mod failing;
mod faults;
mod opens;
mod tool;
