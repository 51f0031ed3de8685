// What is true of the cache machine.
ghost use Rattle.web_cache.specs.Apart.{OneAnswer, StayApart};

/// A call at a moment has one answer, and makes one thing of the groups, where no two caches of a group are one and no two
/// rows of a cache have one key.
pub fn a_call_has_one_answer()
    ensures { OneAnswer }
{}

/// So it is at the start, and after each call.
pub fn caches_stay_apart()
    ensures { StayApart }
{}
