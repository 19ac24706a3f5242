// A write beat that is held back.

// A write beat that was given and is not passed on yet.
#[derive(Clone, Copy)]
pub struct Held {
    pub word: u64,
    pub strobe: u8,
}
