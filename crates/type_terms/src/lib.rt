//! Terms of types, and which of them admit equality. Definitions alone.
#![tactic(auto)]
