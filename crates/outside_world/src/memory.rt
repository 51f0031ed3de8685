// Objects in memory. The `Mem` versions fail at the calls that they were made to fail at, the `Sure` versions never.
mod clock;
mod connections;
mod fault_plan;
mod files;
mod sinks;
mod sources;

pub use clock::MemClock;
pub use connections::{MemConn, SureConn};
pub use files::{MemFiles, SureFiles};
pub use sinks::{MemSink, SureSink};
pub use sources::{MemSource, SureSource};
