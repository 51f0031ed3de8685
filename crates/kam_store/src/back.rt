/// Want of memory, which hands what was given back as it was.
#[derive(Debug, Drop)]
pub struct Back<T> {
    pub given: T,
}
