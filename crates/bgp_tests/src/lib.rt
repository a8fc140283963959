//! Tests of what no row can express: values that no input is read as, copies, calls that no row reaches, and failures around the library: a
//! host's connection, readers, writers and wires. The results for octets, scripts and events are in the rows of `bgp_check_rows`.
#![tactic(auto)]

#[cfg(test)]
mod engines;
#[cfg(test)]
mod loops;
#[cfg(test)]
mod tests;
