// Entries of a history.
use web_data::{WebAns, WebCall};

/// A call that was answered, with the number of the request that made it.
#[derive(Debug, PartialEq, Eq, Drop)]
pub struct Entry {
    pub request: u64,
    pub call: WebCall,
    /// When a cache call was made, in seconds. 0 for a database call.
    pub moment: u64,
    pub answer: WebAns,
}
