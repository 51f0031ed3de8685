// The condition of a call.
ghost use Rattle.std.specs.Prelude.{◌≡◌};
ghost use Rattle.web_data.specs.CacheCalls.{cache_call_fits};

use value_pickle::fits;
use web_data::{CacheCall, CacheOp};

/// Whether the key and the value of a call have the descriptions of its cache.
pub fn call_fits(call: &CacheCall) -> bool
    ensures { result ≡ cache_call_fits call.now }
{
    match &call.op {
        CacheOp::Look(key) => fits(&call.id.key, key),
        CacheOp::Put(key, value) => fits(&call.id.key, key) && fits(&call.id.value, value),
        CacheOp::Flush => true,
    }
}
