ghost use Rattle.std.specs.Prelude.{◌≡◌, false, IfOk};
ghost use Rattle.std.specs.Result.{result_err};
ghost use Rattle.grades.specs.Refusals.{cut_number, cut_refusal};
ghost use Rattle.grades.specs.Maps.{cut_at};
ghost use Rattle.std.proofs.Common.{rules};

use crate::{GradeMap, Refusal, Scale, YesNo};
use thiserror::Error;

/// Why a cut is refused.
#[derive(Clone, Copy, Debug, PartialEq, Eq, Error)]
pub enum CutRefusal {
    #[error("a cut at the floor")]
    AtFloor,
}

impl CutRefusal {
    pub fn number(self) -> u8
        ensures { result ≡ cut_number self }
    {
        match self {
            CutRefusal::AtFloor => 6,
        }
    }
}

impl Refusal for CutRefusal {
    ghost number = { cut_number };

    fn number(self) -> u8 {
        CutRefusal::number(self)
    }
}

/// A cut at a grade: yes for grades above the floor that are at least it, no for the rest.
#[derive(Clone, Copy, Debug)]
pub struct Cut<S: Scale> {
    grade: S,
}

impl<S: Scale> Cut<S> {
    /// A cut at a grade above the floor.
    pub fn at(grade: S) -> Result<Cut<S>, CutRefusal>
        ensures refused { result_err result ≡ cut_refusal (S.Scale.level grade) }
        ensures made { IfOk result (λ cut. S.Scale.level cut.grade ≡ S.Scale.level grade) }
    {
        if grade.at_most(S::floor()) {
            return Err(CutRefusal::AtFloor);
        }
        Ok(Cut { grade })
    }
}

impl<S: Scale> GradeMap for Cut<S> {
    type From = S;

    type To = YesNo;

    ghost table = { λ cut. cut_at (S.Scale.level cut.grade) };

    ghost keeps = { λ _. false };

    ghost ordered = { Prim.search rules };

    ghost floors = { Prim.search rules };

    ghost tops = { Prim.search rules };

    ghost opposites = { Prim.search rules };

    fn image(&self, grade: S) -> YesNo {
        if grade.at_most(S::floor()) {
            return YesNo::No;
        }
        if self.grade.at_most(grade) {
            YesNo::Yes
        } else {
            YesNo::No
        }
    }

    fn keeps_opposites(&self) -> bool {
        false
    }
}
