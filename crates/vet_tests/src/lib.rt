//! Plans that hold and plans that fail, and their lines, as tables. They stand in a crate of their own, so that nothing is proved twice.
#![tactic(auto)]

#[cfg(test)]
mod lines;
#[cfg(test)]
mod tests;
