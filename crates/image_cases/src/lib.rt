//! Cases of image files: what is wrong with them, their runs, and their pieces.
#![tactic(auto)]

#[cfg(test)]
mod tests;
