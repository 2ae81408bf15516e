//! Sections that go past a limit, sections in memory, and the texts of faults.
#![tactic(auto)]

#[cfg(test)]
mod faults;
#[cfg(test)]
mod in_memory;
#[cfg(test)]
mod limits;
#[cfg(test)]
mod vectors;
