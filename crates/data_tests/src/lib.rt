//! Tests of what lines of cases can't show of data: texts, lists and boxes, copies of values and requests, and a book.
//! They stand in a crate of their own: a crate with tests is proved twice.
#![tactic(auto)]

#[cfg(test)]
mod books;
#[cfg(test)]
mod copied;
#[cfg(test)]
mod requests;
#[cfg(test)]
mod tests;
#[cfg(test)]
mod values;
