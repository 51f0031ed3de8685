// Copies of trees. A copy takes steps in proportion to the tree's size, and its calls
// nest no deeper than the tree is high.
mod copied;
mod patterns;
mod programs;
mod types;

pub use copied::{Copied, beside, copied_three, copied_two, with_pair};
