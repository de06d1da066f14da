// What is due: a status and a text.

use crate::status::Status;

/// What the program is to print and to answer.
#[derive(Drop)]
pub struct Due {
    pub status: Status,
    pub text: Vec<u8>,
}

/// Work that goes on with something, or that ends with what is due.
#[derive(Drop)]
pub enum Stage<T> {
    Goes(T),
    Ends(Due),
}
