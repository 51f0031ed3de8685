#![tactic(auto)]
//! The grammar's machine: a stack of what is still to be read, which takes one token after the other and tells the
//! acts that build the tree.
//!
//! - `token_sort`: what the machine sees of a token.
//! - `symbol` and `act`: what the stack holds, and what the machine tells.
//! - `expression`, `pattern`, `types`, `declaration`, `definition`, `function`: the machine's table, by phrases.
//! - `machine`: the fold over the tokens, and `read`.

mod act;
mod declaration;
mod definition;
mod expression;
mod function;
mod machine;
mod mark;
mod name;
mod pattern;
mod stack;
mod symbol;
mod takes;
mod token_sort;
mod types;

pub use act::{Act, DecAct, ExpAct, Made, PatAct, TyAct};
pub use machine::{ReadRefusal, read};
pub use mark::Mark;
pub use symbol::{
    ConPhrase, DecPhrase, ExpItems, ExpPhrase, ExpRest, FunPhrase, HeadPhrase, LaterPhrase,
    PatItems, PatPhrase, Quoted, Sym, TyPhrase,
};
pub use token_sort::TokenSort;
