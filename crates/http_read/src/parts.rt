// What is kept of a head.
use httparse::spans::Span;

/// Where the parts of a message are, by places in its bytes, and what its head says of it.
#[derive(Clone, Copy)]
pub struct Parts {
    /// The length of the head, where the body begins.
    pub head: usize,
    /// The length of the body.
    pub body: usize,
    pub path: Span,
    pub query: Span,
    /// Whether the body is a form.
    pub has_form: bool,
    /// Whether the connection ends after the message.
    pub closing: bool,
}
