#![tactic(auto)]

mod cell;
mod checking;
mod entry;
mod fault;
mod saving;
mod view;

pub use checking::check;
pub use entry::{HEADER, RECORD};
pub use fault::{FileCause, FileFault, GradeFault, RecordCause, RecordFault};
pub use saving::{SaveRefusal, save};
pub use view::{ThousandthsView, WordsView, YesNoView};
