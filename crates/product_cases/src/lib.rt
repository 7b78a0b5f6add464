//! Cases of products: info files, folders, what is inspected, and plans.
#![tactic(auto)]

#[cfg(test)]
mod folders;
#[cfg(test)]
mod info_files;
#[cfg(test)]
mod plans;
#[cfg(test)]
mod products;
