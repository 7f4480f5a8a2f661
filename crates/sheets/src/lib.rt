#![tactic(auto)]

mod cell;
mod drawing;
mod refusal;
mod sheet;
mod size;
mod sizing;
mod structure;
mod translated;

pub use refusal::{DrawRefusal, MarkRefusal, SizeRefusal};
pub use sheet::Sheet;
pub use size::Size;
pub use structure::Structure;
pub use translated::Translated;
