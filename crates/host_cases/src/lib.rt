//! Cases of fbflash whole: its words, its last line and its status.
#![tactic(auto)]

#[cfg(test)]
mod calls;
