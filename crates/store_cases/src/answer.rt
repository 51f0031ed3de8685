use kam_store::{Dead, StoreRefusal};

/// What a call of a store answered.
#[derive(Clone, Copy, Debug, PartialEq, Eq)]
pub(crate) enum Answer {
    Done,
    Word(u64),
    Dead,
    NoPage,
    NoMemory,
    /// More than cases may ask of a store.
    Spent,
}

impl Answer {
    pub(crate) fn of_write(answer: Result<u64, StoreRefusal>) -> Answer {
        match answer {
            Ok(word) => Answer::Word(word),
            Err(StoreRefusal::NoPage) => Answer::NoPage,
            Err(StoreRefusal::Dead) => Answer::Dead,
            Err(StoreRefusal::NoMemory) => Answer::NoMemory,
        }
    }

    pub(crate) fn of_get(answer: Result<u64, Dead>) -> Answer {
        match answer {
            Ok(word) => Answer::Word(word),
            Err(_) => Answer::Dead,
        }
    }

    pub(crate) fn of_set(answer: Result<(), Dead>) -> Answer {
        match answer {
            Ok(()) => Answer::Done,
            Err(_) => Answer::Dead,
        }
    }
}
