//! Measures the parts whose speed matters. With no argument each load is small, and what is
//! printed is sure. With a name and a count, as `region_store 10000000`, that load is timed.
#![tactic(auto)]

mod region_store;
mod row_times;
mod serving;

use std::{env, io};

fn main(rt: HostRuntime) -> io::Result<()> {
    let mut words = env::args(&rt)?;
    let _ = words.next();
    let Some(name) = words.next() else {
        region_store::small(&rt)?;
        serving::small(&rt)?;
        return row_times::small(&rt);
    };
    let count: u32 = match words.next() {
        Some(text) => text.parse().unwrap_or(0),
        None => 0,
    };
    match name.as_str() {
        "cache_rows" => row_times::timed(&rt, count),
        "region_store" => region_store::timed(&rt, count),
        "serving" => serving::timed(&rt, count),
        "serving_bytes" => serving::timed_bytes(&rt, count),
        _ => println!(rt; "no such load: {name}"),
    }
}
