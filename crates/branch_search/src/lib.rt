//! The canonical search: the first full list of choices under which a mode's constraints have a solution, or a tree that shows that there is none.
#![tactic(auto)]

mod canonical;
mod forcing;
mod posed;
mod problems;
mod seeing;
mod stack;
mod walk;

pub use canonical::{Answer, search};
pub use posed::Posed;
