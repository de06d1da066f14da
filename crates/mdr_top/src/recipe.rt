// What is asked for.

/// The seed that chooses the script's lines, and how many they are.
#[derive(Clone, Copy)]
pub struct Recipe {
    pub seed: u64,
    pub size: u64,
}
