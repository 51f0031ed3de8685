// Where a machine stands.
use kam_rows::Ended;

/// Where a machine stands.
#[derive(Clone, Copy)]
pub(crate) enum Phase {
    Going,
    /// At a call.
    Waiting,
    Stopped(Ended),
}
