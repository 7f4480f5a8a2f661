// The bearing of a last mill, from the drawing of its wear sheet to the sheet's file and back.
#![tactic(auto)]

ghost use Rattle.std.specs.Prelude.{◌≡◌, ◌<◌, true, length, is_ok, MatchOption};
ghost use Rattle.sheets.specs.Sheets.{tables_of};
ghost use Rattle.sheets.specs.Tables.{all_floor};
ghost use Rattle.bearing.specs.Bearing.{Becomes, with_steps, with_marks, bearing_steps, bearing_marks, bearing, length_of};

use anyhow::anyhow;
use files::{HEADER, RECORD, ThousandthsView, save};
use grades::{Refusal, Scale, Thousandths, ThousandthsToWords};
use sheets::{DrawRefusal, MarkRefusal, Sheet, Size, Structure, Translated};
use std::fmt::Display;
use std::io;
use thiserror::Error;

const STATES: usize = 3;

const MARKS: usize = 2;

const CELLS: usize = 15;

/// Why the bearing sheet is not drawn.
#[derive(Clone, Copy, Debug, Error)]
enum DrawingRefusal {
    #[error("a step is refused: {0}")]
    Step(#[from] DrawRefusal),
    #[error("a mark is refused: {0}")]
    Mark(#[from] MarkRefusal),
}

fn draw_steps(sheet: &mut Sheet<Thousandths>) -> Result<(), DrawRefusal>
    ensures { Becomes ⟦<Thousandths as Scale>⟧ (λ T. with_steps T bearing_steps) sheet.old sheet.new result }
{
    sheet.draw(0, 0, Thousandths(700))?;
    sheet.draw(0, 1, Thousandths(900))?;
    sheet.draw(1, 1, Thousandths(600))?;
    sheet.draw(1, 2, Thousandths(800))?;
    sheet.draw(2, 2, Thousandths(600))?;
    Ok(())
}

fn mark_states(sheet: &mut Sheet<Thousandths>) -> Result<(), MarkRefusal>
    ensures { Becomes ⟦<Thousandths as Scale>⟧ (λ T. with_marks T bearing_marks) sheet.old sheet.new result }
{
    sheet.mark(0, 0, Thousandths(1000))?;
    sheet.mark(1, 0, Thousandths(500))?;
    sheet.mark(2, 0, Thousandths(0))?;
    sheet.mark(0, 1, Thousandths(0))?;
    sheet.mark(1, 1, Thousandths(300))?;
    sheet.mark(2, 1, Thousandths(1000))?;
    Ok(())
}

/// Draws the steps and marks the states.
fn draw_bearing(sheet: &mut Sheet<Thousandths>) -> Result<(), DrawingRefusal>
    ensures becomes { Becomes ⟦<Thousandths as Scale>⟧ (λ T. with_marks (with_steps T bearing_steps) bearing_marks) sheet.old sheet.new result }
    ensures drawn { tables_of ⟦<Thousandths as Scale>⟧ sheet.old ≡ all_floor 3 2 1000 → is_ok result ≡ true → tables_of ⟦<Thousandths as Scale>⟧ sheet.new ≡ bearing }
{
    draw_steps(sheet)?;
    mark_states(sheet)?;
    Ok(())
}

/// Saves the sheet and opens its file, whose grades are the sheet's: the file's length and the view,
/// or nothing where the memory is too short.
fn save_and_open<'a>(
    sheet: &mut Sheet<Thousandths>,
    out: &'a mut [u8],
) -> Option<(usize, ThousandthsView<'a>)>
    ensures kept { sheet.new ≡ sheet.old }
    ensures opened { MatchOption result
        (length out.old < length_of ⟦<Thousandths as Scale>⟧ (tables_of ⟦<Thousandths as Scale>⟧ sheet.old))
        (λ opened. (opened.0 ≡ length_of ⟦<Thousandths as Scale>⟧ (tables_of ⟦<Thousandths as Scale>⟧ sheet.old))
        × (⟦<ThousandthsView<'a> as Structure>⟧.tables opened.1 ≡ tables_of ⟦<Thousandths as Scale>⟧ sheet.old)) }
{
    let Ok(length) = save(sheet, out) else {
        return None;
    };
    match ThousandthsView::open(&out[..length]) {
        Ok(view) => Some((length, view)),
        Err(_) => None,
    }
}

/// A line for each step above the floor.
fn print_steps<K: Structure>(rt: &impl Print, structure: &mut K) -> io::Result<()>
where
    K::Grade: Display,
{
    let size = Size::of(structure);
    for from in 0..size.states() {
        for to in 0..size.states() {
            let grade = structure.step_grade(from, to);
            if !grade.at_most(<K::Grade as Scale>::floor()) {
                println!(rt; "step {from} to {to}: {grade}")?;
            }
        }
    }
    Ok(())
}

/// A line for each mark above the floor.
fn print_marks<K: Structure>(rt: &impl Print, structure: &mut K) -> io::Result<()>
where
    K::Grade: Display,
{
    let size = Size::of(structure);
    for which in 0..size.marks() {
        let letter = (b'a' + which as u8) as char;
        for state in 0..size.states() {
            let grade = structure.mark_grade(state, which);
            if !grade.at_most(<K::Grade as Scale>::floor()) {
                println!(rt; "mark {letter} in {state}: {grade}")?;
            }
        }
    }
    Ok(())
}

fn print_hex(rt: &impl Print, bytes: &[u8]) -> io::Result<()> {
    for (i, byte) in bytes.iter().enumerate() {
        if i > 0 {
            print!(rt; " ")?;
        }
        print!(rt; "{byte:02X}")?;
    }
    println!(rt)
}

/// A line for the header, and one for each record.
fn print_file(rt: &impl Print, file: &[u8]) -> io::Result<()> {
    let Some((header, records)) = file.split_at_checked(HEADER) else {
        return print_hex(rt, file);
    };
    print_hex(rt, header)?;
    for record in records.chunks(RECORD) {
        print_hex(rt, record)?;
    }
    Ok(())
}

fn print_answer<T: Drop, R: Refusal>(
    rt: &impl Print,
    call: &str,
    answer: Result<T, R>,
) -> io::Result<()> {
    match answer {
        Ok(_) => println!(rt; "{call}: taken"),
        Err(refusal) => println!(rt; "{call}: refused, {}", refusal.number()),
    }
}

fn print_refusals(rt: &impl Print, sheet: &mut Sheet<Thousandths>) -> io::Result<()> {
    print_answer(rt, "step 0 to 3", sheet.draw(0, 3, Thousandths(500)))?;
    print_answer(rt, "mark c in 0", sheet.mark(0, 2, Thousandths(500)))?;
    let mut short = [0; 54];
    print_answer(rt, "saving into 54 bytes", save(sheet, &mut short))
}

fn run(rt: &HostRuntime) -> anyhow::Result<()> {
    let mut memory = [Thousandths(0); CELLS];
    let size = Size::new(STATES, MARKS, memory.len())?;
    let mut sheet = Sheet::new(size, &mut memory);
    draw_bearing(&mut sheet)?;
    println!(rt; "the bearing sheet, in thousandths: what is above the floor")?;
    print_steps(rt, &mut sheet)?;
    print_marks(rt, &mut sheet)?;
    let mut out = [0; 100];
    let Some((length, _)) = save_and_open(&mut sheet, &mut out) else {
        return Err(anyhow!("saving is refused"));
    };
    println!(rt; "its file, {length} bytes")?;
    print_file(rt, out.get(0..length).unwrap_or(&out))?;
    println!(rt; "what is refused")?;
    print_refusals(rt, &mut sheet)?;
    println!(rt; "the steps in words")?;
    print_steps(rt, &mut Translated::new(sheet, ThousandthsToWords))?;
    Ok(())
}

fn main(rt: HostRuntime) -> anyhow::Result<()> {
    run(&rt)
}
