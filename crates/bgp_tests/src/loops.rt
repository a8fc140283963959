//! Scripts that run over wires that fail, change octets or record them: what no contract and no row covers.

mod scripts;
mod wires;
