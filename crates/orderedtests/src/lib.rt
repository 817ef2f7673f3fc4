//! What rows in order do on examples.
#![tactic(auto)]

#[cfg(test)]
mod moving;
#[cfg(test)]
mod rows;
#[cfg(test)]
mod samples;
