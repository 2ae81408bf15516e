//! An index in a file that is larger than any that can be made.
#![tactic(auto)]

#[cfg(test)]
mod index_file;
