// Each object, through the bound under which it is used.

pub(crate) mod far;
mod files;
pub(crate) mod shelf;
mod sink;
