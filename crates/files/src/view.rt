ghost use Rattle.std.specs.Prelude.{◌≡◌, IfOk, OnOk};
ghost use Rattle.std.specs.Result.{result_err};
ghost use Rattle.files.specs.Format.{level_by};
ghost use Rattle.files.specs.Opening.{Opened, Verdict};
ghost use Rattle.files.specs.Recorded.{level_found};
ghost use Rattle.files.specs.Search.{partition_point, code_under, found, whole_records, view_tables};
ghost use Rattle.sheets.specs.Tables.{Bounded};

use crate::cell::Kind;
use crate::checking::{MOST_MARKS, MOST_STATES, check};
use crate::entry::{HEADER, Key};
use crate::fault::FileFault;
use grades::{Scale, Thousandths, Words, YesNo};
use sheets::Structure;
use std::marker::PhantomData;

/// Checks a file: what passes is read as it is recorded.
fn pass<S: Scale>(bytes: &[u8]) -> Result<(), FileFault>
    ensures verdict { Verdict S.Scale bytes.now (result_err result) }
    ensures opened { OnOk result (Opened S.Scale bytes.now (view_tables S.Scale bytes.now)) }
{
    check::<S>(bytes)
}

/// How many records come before a key, where they ascend: by binary search.
fn partition_point(raws: &[[u8; 5]], wanted: Key) -> usize
    ensures { result ≡ partition_point raws.now wanted }
{
    let mut low = 0;
    let mut high = raws.len();
    while low < high {
        let middle = low + (high - low) / 2;
        let [kind, first, second, ..] = raws[middle];
        if (kind, first, second) < wanted {
            low = middle + 1;
        } else {
            high = middle;
        }
    }
    low
}

/// The code of a record, where it has the key.
fn code_under(raw: &[u8; 5], wanted: Key) -> Option<u16>
    ensures { result ≡ code_under raw.now wanted }
{
    let &[kind, first, second, low, high] = raw;
    if (kind, first, second) == wanted {
        Some(u16::from_le_bytes([low, high]))
    } else {
        None
    }
}

/// A file for a scale, read where it lies.
// no invariant: any bytes mean something, and those of a file without a fault mean what is recorded
#[derive(Clone, Copy)]
struct OpenFile<'a, S: Scale> {
    bytes: &'a [u8],
    scale: PhantomData<S>,
}

impl<'a, S: Scale> OpenFile<'a, S> {
    fn new(bytes: &'a [u8]) -> OpenFile<'a, S>
        ensures { result.bytes.now ≡ bytes.now }
    {
        OpenFile {
            bytes,
            scale: PhantomData,
        }
    }

    /// How many states there are; outside the limits, the nearest limit.
    fn states(&self) -> usize
        ensures value { result ≡ (view_tables S.Scale self.now.bytes.now).states }
        ensures bounded { Bounded S.Scale.height (view_tables S.Scale self.now.bytes.now) }
    {
        let states = self.bytes.get(6).copied().unwrap_or(0);
        usize::from(states.clamp(1, MOST_STATES))
    }

    /// How many marks there are; outside the limits, the nearest limit.
    fn marks(&self) -> usize
        ensures value { result ≡ (view_tables S.Scale self.now.bytes.now).marks }
        ensures bounded { Bounded S.Scale.height (view_tables S.Scale self.now.bytes.now) }
    {
        let marks = self.bytes.get(7).copied().unwrap_or(0);
        usize::from(marks.min(MOST_MARKS))
    }

    /// The whole records after the header.
    fn records(&self) -> &'a [[u8; 5]]
        ensures { result.now ≡ whole_records self.now.bytes.now }
    {
        self.bytes.get(HEADER..).unwrap_or(&[]).as_chunks().0
    }

    /// The code that is recorded under a key, or nothing.
    fn find(&self, wanted: Key) -> Option<u16>
        ensures { result ≡ found (whole_records self.now.bytes.now) wanted }
    {
        let raws = self.records();
        code_under(raws.get(partition_point(raws, wanted))?, wanted)
    }

    /// The grade that is recorded under a key, or the floor.
    fn grade(&self, wanted: Key) -> S
        ensures { S.Scale.level result ≡ level_found S.Scale (found (whole_records self.now.bytes.now) wanted) }
    {
        self.find(wanted)
            .and_then(|code| S::of_code(code))
            .unwrap_or(S::floor())
    }

    /// The grade of a step or of a mark.
    fn cell(&self, kind: Kind, first: usize, second: usize) -> S
        ensures value { S.Scale.level result ≡ level_by (view_tables S.Scale self.now.bytes.now) kind first second }
        ensures bounded { Bounded S.Scale.height (view_tables S.Scale self.now.bytes.now) }
    {
        let limit = match kind {
            Kind::Step => self.states(),
            Kind::Mark => self.marks(),
        };
        if first >= self.states() || second >= limit {
            return S::floor();
        }
        self.grade((kind as u8, first as u8, second as u8))
    }
}

// A view is a plain type of its own for each scale, so that its name says what the file is in.

/// A sheet file in thousandths, read where it lies.
#[derive(Clone, Copy)]
pub struct ThousandthsView<'a> {
    file: OpenFile<'a, Thousandths>,
}

impl<'a> ThousandthsView<'a> {
    /// Opens a file in thousandths, or answers its first fault.
    pub fn open(bytes: &'a [u8]) -> Result<ThousandthsView<'a>, FileFault>
        ensures verdict { Verdict ⟦<Thousandths as Scale>⟧ bytes.now (result_err result) }
        ensures opened { IfOk result (λ view. Opened ⟦<Thousandths as Scale>⟧ bytes.now (⟦<ThousandthsView<'a> as Structure>⟧.tables view)) }
    {
        pass::<Thousandths>(bytes)?;
        Ok(ThousandthsView {
            file: OpenFile::new(bytes),
        })
    }
}

impl<'a> Structure for ThousandthsView<'a> {
    type Grade = Thousandths;

    ghost tables = { λ view. view_tables ⟦<Thousandths as Scale>⟧ view.file.bytes.now };

    fn states(&mut self) -> usize {
        self.file.states()
    }

    fn marks(&mut self) -> usize {
        self.file.marks()
    }

    fn step_grade(&mut self, from: usize, to: usize) -> Thousandths {
        self.file.cell(Kind::Step, from, to)
    }

    fn mark_grade(&mut self, state: usize, which: usize) -> Thousandths {
        self.file.cell(Kind::Mark, state, which)
    }
}

/// A sheet file in words, read where it lies.
#[derive(Clone, Copy)]
pub struct WordsView<'a> {
    file: OpenFile<'a, Words>,
}

impl<'a> WordsView<'a> {
    /// Opens a file in words, or answers its first fault.
    pub fn open(bytes: &'a [u8]) -> Result<WordsView<'a>, FileFault>
        ensures verdict { Verdict ⟦<Words as Scale>⟧ bytes.now (result_err result) }
        ensures opened { IfOk result (λ view. Opened ⟦<Words as Scale>⟧ bytes.now (⟦<WordsView<'a> as Structure>⟧.tables view)) }
    {
        pass::<Words>(bytes)?;
        Ok(WordsView {
            file: OpenFile::new(bytes),
        })
    }
}

impl<'a> Structure for WordsView<'a> {
    type Grade = Words;

    ghost tables = { λ view. view_tables ⟦<Words as Scale>⟧ view.file.bytes.now };

    fn states(&mut self) -> usize {
        self.file.states()
    }

    fn marks(&mut self) -> usize {
        self.file.marks()
    }

    fn step_grade(&mut self, from: usize, to: usize) -> Words {
        self.file.cell(Kind::Step, from, to)
    }

    fn mark_grade(&mut self, state: usize, which: usize) -> Words {
        self.file.cell(Kind::Mark, state, which)
    }
}

/// A sheet file in yes and no, read where it lies.
#[derive(Clone, Copy)]
pub struct YesNoView<'a> {
    file: OpenFile<'a, YesNo>,
}

impl<'a> YesNoView<'a> {
    /// Opens a file in yes and no, or answers its first fault.
    pub fn open(bytes: &'a [u8]) -> Result<YesNoView<'a>, FileFault>
        ensures verdict { Verdict ⟦<YesNo as Scale>⟧ bytes.now (result_err result) }
        ensures opened { IfOk result (λ view. Opened ⟦<YesNo as Scale>⟧ bytes.now (⟦<YesNoView<'a> as Structure>⟧.tables view)) }
    {
        pass::<YesNo>(bytes)?;
        Ok(YesNoView {
            file: OpenFile::new(bytes),
        })
    }
}

impl<'a> Structure for YesNoView<'a> {
    type Grade = YesNo;

    ghost tables = { λ view. view_tables ⟦<YesNo as Scale>⟧ view.file.bytes.now };

    fn states(&mut self) -> usize {
        self.file.states()
    }

    fn marks(&mut self) -> usize {
        self.file.marks()
    }

    fn step_grade(&mut self, from: usize, to: usize) -> YesNo {
        self.file.cell(Kind::Step, from, to)
    }

    fn mark_grade(&mut self, state: usize, which: usize) -> YesNo {
        self.file.cell(Kind::Mark, state, which)
    }
}
