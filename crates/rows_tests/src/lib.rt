//! Units in pieces and in turns, growths that are refused, units that aren't written, and writers that aren't perfect.
#![tactic(auto)]

#[cfg(test)]
mod growths;
#[cfg(test)]
mod refusals;
#[cfg(test)]
mod runs;
#[cfg(test)]
mod standing;
#[cfg(test)]
mod writers;
