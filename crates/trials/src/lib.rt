//! Tests over the public calls of the other crates, apart from them so that a crate is not proved again for its tests.
#![tactic(auto)]

#[cfg(test)]
mod calls;
#[cfg(test)]
mod numbers;
#[cfg(test)]
mod orders;
#[cfg(test)]
mod reports;
#[cfg(test)]
mod rule_sets;
#[cfg(test)]
mod settling;
#[cfg(test)]
mod shared;
#[cfg(test)]
mod texts;
