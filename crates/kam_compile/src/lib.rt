#![tactic(auto)]
//! The compiler: from region terms to code of the machine.
//!
//! Each form leaves one word more on the stack; in a tail position it returns instead. A frame has the
//! argument as its word 0, the places that are passed behind it, and then what the forms pushed: what
//! declarations and patterns bind, and the regions that begin. A closure holds the address of its code,
//! the words of the names that are free in it, in the order of their first use, and the serials of the
//! regions that its code uses.
//!
//! The code begins with a jump to the program, and with what raises `Match` and `Bind`. Each function
//! has code of its own, behind that of the functions in it; then come the program, and the code that is
//! written once for all uses: that of constructors and primitives as values, and of equality at types.
//! All of it is written twice: what the first pass finds are the addresses that the second one names.

mod application;
mod compiler;
mod declaration;
mod equality;
mod expression;
mod function;
mod pattern;
mod program;
mod refusal;
mod rules;
mod stub;

pub use code_parts::program_size;
pub use program::compile;
pub use refusal::CompileRefusal;
