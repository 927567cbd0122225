//! Which commands a contradiction names.
ghost use Rattle.std.specs.Prelude.{◌≡◌, ◌++◌, IfOk, OnOk};
ghost use Rattle.nvm_standard.specs.PointView.{seen_table};
ghost use Rattle.nvm_evidence.specs.Named as spec;
ghost use Rattle.nvm_evidence.specs.Named.{AreNamed, AreRising};

use nvm_record::NoMemory;
use nvm_standard::{Conclusion, Contradiction, Fact, Points};
use std::alloc::Global;

/// Appends the numbers of the points that the fact names.
fn put_fact(numbers: &mut Vec<u32>, fact: Fact) -> Result<(), NoMemory>
    ensures { OnOk result (numbers.new.items ≡ numbers.old.items ++ spec.fact_points fact) }
{
    match fact {
        Fact::Time { earlier, later } => numbers.extend_from_slice(&[earlier.point, later.point]),
        Fact::Deallocate {
            deallocate,
            writer,
            ..
        } => numbers.extend_from_slice(&[deallocate, writer]),
        Fact::Own { later, .. } => numbers.extend_from_slice(&[later.saturating_sub(1), later]),
        Fact::Source { writer, reader, .. } | Fact::First { reader, writer, .. } => {
            numbers.extend_from_slice(&[writer, reader])
        }
        Fact::Over {
            reader,
            writer,
            source,
            ..
        }
        | Fact::Under {
            writer,
            source,
            reader,
            ..
        } => numbers.extend_from_slice(&[reader, writer, source]),
        Fact::AtFirst { reader, .. } => numbers.extend_from_slice(&[reader]),
        Fact::TiedBefore { reader, entry, .. } | Fact::TiedAfter { entry, reader, .. } => {
            numbers.extend_from_slice(&[reader, entry])
        }
    }
}

/// Appends the numbers of the points that the conclusion names.
fn put_conclusion(numbers: &mut Vec<u32>, conclusion: Conclusion) -> Result<(), NoMemory>
    ensures { OnOk result (numbers.new.items ≡ numbers.old.items ++ spec.conclusion_points conclusion) }
{
    match conclusion {
        Conclusion::Loop => Ok(()),
        Conclusion::Nobody { reader, .. } | Conclusion::Nowhere { reader } => {
            numbers.extend_from_slice(&[reader])
        }
    }
}

/// The numbers of the points that the contradiction names.
fn points_named(alloc: Global, contradiction: &Contradiction) -> Result<Vec<u32>, NoMemory>
    ensures { IfOk result (λ numbers. numbers.items ≡ spec.points_named contradiction.now) }
{
    let mut numbers = Vec::new(alloc);
    for fact in &contradiction.facts {
        put_fact(&mut numbers, *fact)?;
    }
    put_conclusion(&mut numbers, contradiction.conclusion)?;
    Ok(numbers)
}

/// Appends the command of the point of this number, where the table has it.
fn put_command(commands: &mut Vec<u32>, points: &Points<'_>, number: u32) -> Result<(), NoMemory>
    ensures { OnOk result (commands.new.items ≡ commands.old.items ++ spec.command_at (seen_table points.now) number) }
{
    if let Some(point) = points.points.get(number as usize) {
        commands.push(point.command)?;
    }
    Ok(())
}

/// The commands of the points of these numbers, in their order. A number that the table hasn't is left out.
fn commands_at(alloc: Global, points: &Points<'_>, numbers: &Vec<u32>) -> Result<Vec<u32>, NoMemory>
    ensures { IfOk result (λ commands. commands.items ≡ spec.commands_at (seen_table points.now) numbers.now.items) }
{
    let mut commands = Vec::new(alloc);
    for number in numbers {
        put_command(&mut commands, points, *number)?;
    }
    Ok(commands)
}

/// Puts the numbers in rising order, each once.
fn sort_once(numbers: &mut Vec<u32>)
    ensures { AreRising numbers.old.items numbers.new.items }
{
    numbers.sort_unstable();
    numbers.dedup();
}

/// The numbers of the commands that the contradiction names, rising.
pub(crate) fn commands_named(
    alloc: Global,
    points: &Points<'_>,
    contradiction: &Contradiction,
) -> Result<Vec<u32>, NoMemory>
    ensures { IfOk result (λ commands. AreNamed (seen_table points.now) contradiction.now commands.items) }
{
    let numbers = points_named(alloc, contradiction)?;
    let mut commands = commands_at(alloc, points, &numbers)?;
    sort_once(&mut commands);
    Ok(commands)
}
