//! Texts, lists, boxes, tokens and trees: the plain types that all crates of the server have in common.
#![tactic(auto)]

mod boxed;
mod constructor;
mod copy;
mod listed;
mod text;
mod token;
mod tree;

pub use boxed::Boxed;
pub use constructor::Constructor;
pub use copy::{Copied, beside, copied_three, copied_two, with_pair};
pub use listed::Listed;
pub use no_memory::NoMemory;
pub use text::Text;
pub use token::{Lack, Token, TokenForm};
pub use tree::{Dec, DecForm, Exp, ExpForm, Pat, PatForm, Piece, Program, Rule, Span, Ty, TyForm};
