// The files of three texts.

/// The names of the files that hold the texts of a kernel half, of a user half and of a plan.
#[derive(Clone, Copy)]
pub struct TextFiles<'a> {
    pub kernel: &'a str,
    pub user: &'a str,
    pub plan: &'a str,
}
