//! What whole files and their listing do on examples.
#![tactic(auto)]

#[cfg(test)]
mod whole;
