//! The static rules of the language: what names stand for, which types a program has, and when it has
//! none. Definitions alone; scope and inference are proved against them.
#![tactic(auto)]
