//! Tests of what stands below the machine: the listing of code, and the terms with regions.
#![tactic(auto)]

#[cfg(test)]
mod copied;
#[cfg(test)]
mod erased;
#[cfg(test)]
mod listing;
#[cfg(test)]
mod region_terms;
#[cfg(test)]
mod specialised_terms;
