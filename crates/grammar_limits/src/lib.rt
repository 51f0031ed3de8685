//! Laws of the grammar: what the searches over the acts of a program tell of its heights and its lacks.
#![tactic(auto)]

mod laws;
