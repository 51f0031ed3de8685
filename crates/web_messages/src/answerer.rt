// What answers requests.
ghost use Rattle.web_messages.specs.declared.request.Request.{Request as RequestValue};
ghost use Rattle.web_messages.specs.declared.request.Reply.{Reply as ReplyValue};

use crate::{Reply, Request};

/// What gives each request its reply.
pub trait Answerer {
    /// An answer: the state before it, the request, the reply and the state after it.
    ghost answers: { Self → RequestValue → ReplyValue → Self → Type 0 };

    fn answer(&mut self, request: &Request) -> Reply
        ensures { answers self.old request.now result self.new };
}
