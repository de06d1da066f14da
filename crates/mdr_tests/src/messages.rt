// Whole messages against bytes from outside, and damaged bytes.

mod damaged;
mod large;
mod whole;

use mdr_msg::{Message, can_encode, encode};
use std::alloc::Global;
use std::test::Fail;

fn written(alloc: Global, message: &Message) -> Result<Vec<u8>, Fail> {
    if !can_encode(message) {
        return Err("the message has no spelling".into());
    }
    match encode(alloc, message) {
        Ok(bytes) => Ok(bytes),
        Err(_) => Err("memory was wanting".into()),
    }
}
