#![tactic(auto)]

mod cut;
mod grade_map;
mod maps;
mod refusal;
mod scale;
mod thousandths;
mod words;
mod yes_no;

pub use cut::{Cut, CutRefusal};
pub use grade_map::GradeMap;
pub use maps::{ThousandthsToWords, WordsToThousandths};
pub use refusal::Refusal;
pub use scale::Scale;
pub use thousandths::Thousandths;
pub use words::Words;
pub use yes_no::YesNo;
