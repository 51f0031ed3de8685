use sml_syntax::Text;
use web_data::WebCall;

/// Why a run stopped.
#[derive(Debug, Drop)]
pub enum Stop {
    /// The code came to its end: the page's status, content type and body.
    Finished(u16, Text, Text),
    /// An exception that no handler takes, with its name.
    Raised(Text),
    /// A call waits for its answer.
    Call(WebCall),
    /// A statement outside the grammar, with the length of its longest prefix that begins one.
    BadStatement(u64),
    /// No page was to be had.
    NoPage,
    /// The next step would pass the budget.
    Budget,
    /// The next step would pass the limit of the stack.
    StackFull,
    /// The next step would pass the limit of the page.
    ReplyFull,
    /// Memory is wanting.
    NoMemory,
    /// The code has no next step. It never comes from compiled code.
    Stuck,
}
