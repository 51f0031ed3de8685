//! The table of the basis: its types, constructors, exceptions and values with their types. Definitions
//! alone; scope, typing and evaluation read this one table.
#![tactic(auto)]
