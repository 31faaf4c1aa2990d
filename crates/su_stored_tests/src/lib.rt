//! Desks whose trees lie on a store: what no clause says. Nothing stands on these tests.
#![tactic(auto)]

#[cfg(test)]
mod changes;
#[cfg(test)]
mod desks;
#[cfg(test)]
mod dice;
#[cfg(test)]
mod histories;
#[cfg(test)]
mod pairs;
#[cfg(test)]
mod rows;
#[cfg(test)]
mod sources;
