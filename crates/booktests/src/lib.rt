//! What the page book and rows of limits do on examples.
#![tactic(auto)]

#[cfg(test)]
mod tests;
