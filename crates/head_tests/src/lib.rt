//! Numbers, tables and headers: spellings, tables that are built, headers that are read in turns, and growths that are refused.
#![tactic(auto)]

#[cfg(test)]
mod building;
#[cfg(test)]
mod growths;
#[cfg(test)]
mod numbers;
#[cfg(test)]
mod reading;
#[cfg(test)]
mod vectors;
#[cfg(test)]
mod writing;
