//! Which cells user code may touch: those that pointers lead to, each as far as its annotation lets it be followed. The
//! time is near linear in the cells that are visited.
#![tactic(auto)]

mod born;
mod chains;
mod extent;
mod failing;
mod follow;
mod held;
mod keys;
mod layouts;
mod least;
mod lengths;
mod lists;
mod marked;
mod marks;
mod numbers;
mod reaching;
mod roots;
mod rows;
mod scene;
mod searches;

pub use born::gained;
pub use failing::Failing;
pub use reaching::visible;
pub use roots::Root;
