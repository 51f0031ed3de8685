//! The rules of the grammar: how tokens are spelled, which tokens a text has, and which tree a list of
//! tokens has. Definitions alone; the lexer, the parser and the printer are proved against them.
#![tactic(auto)]
