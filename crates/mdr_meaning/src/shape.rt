// What an object is born as.

/// So many elements of a type, which is a number of the type table. An allocation may ask for any number of them.
#[derive(Clone, Copy, Debug)]
pub struct Shape64 {
    pub ty: u32,
    pub count: u64,
}
