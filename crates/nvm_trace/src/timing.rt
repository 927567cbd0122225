ghost use Rattle.std.specs.Prelude.{◌≡◌, ◌↔◌, ℕ, List, ◌∷◌, [], ◌++◌, ◌<◌, All, IsTrue, map, length, slice_index, slice_set, max, MatchOption};
ghost use Rattle.nvm_trace.specs.Inside.Latest.{HasRoom, HasEachLevel, HasUpToEach};
ghost use Rattle.nvm_trace.specs.Timely.{IsLate, IsTimely, IsFirstLate};
ghost use Rattle.nvm_trace.specs.declared.step.Step.{Step as StepView};

use crate::raising::raise;
use crate::step::Step;

/// Raises the number at this level to the time.
fn note_at(row: &mut Vec<u64>, level: usize, time: u64)
    requires { level < length row.old.items }
    ensures { row.new.items ≡ slice_set row.old.items level (max (slice_index row.old.items level) time) }
{
    if row[level] < time {
        row[level] = time;
    }
}

/// Notes when the step began, at its level.
fn note(rows: &mut Vec<Vec<u64>>, step: &Step)
    requires { HasRoom (map (λ row. row.items) rows.old.items) step.now }
    ensures room { (s : StepView) → HasRoom (map (λ row. row.items) rows.old.items) s
        → HasRoom (map (λ row. row.items) rows.new.items) s }
    ensures noted { (steps : List StepView) → HasEachLevel steps (map (λ row. row.items) rows.old.items)
        → HasEachLevel (steps ++ step.now ∷ []) (map (λ row. row.items) rows.new.items) }
{
    note_at(&mut rows[step.unit as usize], step.level(), step.began);
}

/// Notes when each of the steps began.
fn note_all(rows: &mut Vec<Vec<u64>>, steps: &Vec<Step>)
    requires room { All (HasRoom (map (λ row. row.items) rows.old.items)) steps.now.items }
    requires none { HasEachLevel [] (map (λ row. row.items) rows.old.items) }
    ensures room { All (HasRoom (map (λ row. row.items) rows.new.items)) steps.now.items }
    ensures noted { HasEachLevel steps.now.items (map (λ row. row.items) rows.new.items) }
{
    for step in steps {
        note(rows, step);
    }
}

/// Makes each time the greatest up to its level.
fn raise_all(rows: &mut Vec<Vec<u64>>)
    ensures room { (s : StepView) → HasRoom (map (λ row. row.items) rows.old.items) s
        → HasRoom (map (λ row. row.items) rows.new.items) s }
    ensures raised { (steps : List StepView) → HasEachLevel steps (map (λ row. row.items) rows.old.items)
        → HasUpToEach steps (map (λ row. row.items) rows.new.items) }
{
    for unit in 0..rows.len() {
        raise(&mut rows[unit]);
    }
}

/// Whether the command of an earlier step of the unit began after this one's had ended.
fn is_late(rows: &Vec<Vec<u64>>, step: &Step) -> bool
    requires { HasRoom (map (λ row. row.items) rows.now.items) step.now }
    ensures { (steps : List StepView) → HasUpToEach steps (map (λ row. row.items) rows.now.items)
        → IsTrue result ↔ IsLate steps step.now }
{
    let level = step.level();
    match step.ended {
        Some(ended) => level > 0 && ended < rows[step.unit as usize][level - 1],
        None => false,
    }
}

/// The place of the first step that is late. The table is of zeroes, with a place for each step.
pub(crate) fn first_late(mut rows: Vec<Vec<u64>>, steps: &Vec<Step>) -> Option<usize>
    requires room { All (HasRoom (map (λ row. row.items) rows.items)) steps.now.items }
    requires none { HasEachLevel [] (map (λ row. row.items) rows.items) }
    ensures { MatchOption result (IsTimely steps.now.items) (IsFirstLate steps.now.items) }
{
    note_all(&mut rows, steps);
    raise_all(&mut rows);
    for place in 0..steps.len() {
        if is_late(&rows, &steps[place]) {
            return Some(place);
        }
    }
    None
}
