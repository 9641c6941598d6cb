//! The worked cases, run through the code that answers them.
#![tactic(auto)]

#[cfg(test)]
mod tests;
