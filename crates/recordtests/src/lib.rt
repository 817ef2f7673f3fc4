//! What numbers, reader and writer do on examples.
#![tactic(auto)]

#[cfg(test)]
mod numbers;
#[cfg(test)]
mod reading;
#[cfg(test)]
mod samples;
#[cfg(test)]
mod writing;
