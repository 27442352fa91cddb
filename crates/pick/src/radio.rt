// What a radio takes of a message.

// Whether a pick is passed, and the bytes that its changes may have together.
#[derive(Clone, Copy)]
pub struct Radio {
    pub limited: bool,
    pub budget: u64,
}
