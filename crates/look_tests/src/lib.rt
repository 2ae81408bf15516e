//! Look-up in rows: finders, and indices that are built.
#![tactic(auto)]

#[cfg(test)]
mod agreement;
#[cfg(test)]
mod memory;
#[cfg(test)]
mod rows;
#[cfg(test)]
mod worked;
