// What makes the calls of requests.
ghost use Rattle.std.specs.Prelude.{◌≡◌, ◌<◌, true, length, None, Some, slice_get, ℕ, List, IfOk, OnErr};
ghost use Rattle.web_data.specs.CacheCalls.{cache_call_fits, cache_answer_fits};
ghost use Rattle.web_data.specs.declared.database.WebCall.TheVariants as made;
ghost use Rattle.web_data.specs.declared.database.WebAns.TheVariants as given;
ghost use Rattle.history_core.specs.Calling.{Act, Begins, AnswersCache, LacksForCache, AnswersCommand, LacksForCommand, Ends, CallsMeaning, Began, IsRunning, IsAnswered, FitsOrFails, ended};

use sml_syntax::NoMemory;
use web_data::{CacheAns, CacheCall, DbAns, DbCmd};

/// What makes the calls of requests, one request after another.
pub trait Calls {
    /// The names of the databases, and the request that runs here.
    ghost meaning: { Self → CallsMeaning };

    /// A step: the state before it, what was done, and the state after it.
    ghost step: { Self → Act → Self → Type 0 };

    /// Begins a request, and answers its number. It is above all that were given here before, until the numbers end.
    fn begin(&mut self) -> u64
        requires { (meaning self.old).running ≡ None }
        ensures step { step self.old (Begins result) self.new }
        ensures meaning { Began (meaning self.old) result (meaning self.new) };

    /// Makes a cache call. Its moment is the reading, or the last moment of its group where that is later.
    fn cache(&mut self, reading: u64, call: &CacheCall) -> Result<CacheAns, NoMemory>
        requires running { IsRunning (meaning self.old) }
        requires fits { cache_call_fits call.now ≡ true }
        ensures ok { IfOk result (λ a. IsAnswered step (AnswersCache reading) (meaning self.old).running self.old (made.Cache call.now) (given.Cache a) self.new) }
        ensures err { OnErr result (step self.old (LacksForCache reading) self.new) }
        ensures fits { IfOk result (λ a. cache_answer_fits call.now a ≡ true) }
        ensures meaning { meaning self.new ≡ meaning self.old };

    /// Runs a command on the database with a number, from 0.
    fn db(&mut self, database: u64, cmd: &DbCmd) -> Result<DbAns, NoMemory>
        requires running { IsRunning (meaning self.old) }
        requires there { database < length (meaning self.old).names }
        ensures ok { IfOk result (λ a. (name : List ℕ) × (slice_get (meaning self.old).names database ≡ Some name) × IsAnswered step AnswersCommand (meaning self.old).running self.old (made.Db name cmd.now) (given.Db a) self.new) }
        ensures err { OnErr result (step self.old LacksForCommand self.new) }
        ensures fits { IfOk result (FitsOrFails cmd.now) }
        ensures meaning { meaning self.new ≡ meaning self.old };

    /// Ends the request.
    fn end(&mut self)
        requires { IsRunning (meaning self.old) }
        ensures step { step self.old Ends self.new }
        ensures meaning { meaning self.new ≡ ended (meaning self.old) };
}
