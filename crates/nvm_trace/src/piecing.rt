ghost use Rattle.std.specs.Prelude.{◌≡◌, ◌++◌, [], ◌∷◌, List, IfOk, OnOk, map, take};
ghost use Rattle.std.specs.List.{range_with_len};
ghost use Rattle.nvm_trace.specs.declared.cut.Cut.TheVariants.{Block, InUnit};
ghost use Rattle.nvm_plan.specs.JobPart.{job_units as units_of_job};
ghost use Rattle.nvm_trace.specs.Pieces.{Piece, piece, pieces, pieces_of};

use crate::cut::Cut;
use crate::cuts::Cuts;
use crate::judging::Judging;
use crate::owner::Owner;
use crate::pieces::cuts_of;
use crate::reads::Reads;
use crate::trace::Trace;
use crate::traced_job::TracedJob;
use nvm_geometry::Geometry;
use nvm_plan::job_units;
use nvm_record::NoMemory;
use std::alloc::{AllocError, Global};

/// Puts a piece at the end, where there are fewer than `most`.
fn put_piece<'a>(owners: &mut Vec<Owner<'a>>, most: usize, owner: Owner<'a>) -> Result<(), NoMemory>
    ensures { (ps : List Piece) → map (λ o. piece o.whole.now o.cut) owners.old.items ≡ take most ps
        → OnOk result (map (λ o. piece o.whole.now o.cut) owners.new.items
        ≡ take most (ps ++ piece owner.entry.whole.now owner.entry.cut ∷ [])) }
{
    if owners.len() < most {
        owners.push(owner)?;
    }
    Ok(())
}

/// Puts each block of the command at the end, up to `most` pieces.
fn put_blocks<'a>(
    owners: &mut Vec<Owner<'a>>,
    most: usize,
    traced: &'a TracedJob,
    blocks: u32,
) -> Result<(), NoMemory>
    ensures { (ps : List Piece) → map (λ o. piece o.whole.now o.cut) owners.old.items ≡ take most ps
        → OnOk result (map (λ o. piece o.whole.now o.cut) owners.new.items
        ≡ take most (ps ++ map (piece traced.now) (map Block (range_with_len 0 blocks)))) }
{
    for k in 0..blocks {
        let owner = Owner {
            whole: traced,
            cut: Cut::Block(k),
        };
        put_piece(owners, most, owner)?;
    }
    Ok(())
}

/// Puts the command's part in each of its units at the end, up to `most` pieces.
fn put_units<'a>(
    owners: &mut Vec<Owner<'a>>,
    most: usize,
    geometry: &Geometry,
    traced: &'a TracedJob,
) -> Result<(), NoMemory>
    ensures { (ps : List Piece) → map (λ o. piece o.whole.now o.cut) owners.old.items ≡ take most ps
        → OnOk result (map (λ o. piece o.whole.now o.cut) owners.new.items
        ≡ take most (ps ++ map (piece traced.now) (map InUnit (units_of_job geometry.now traced.now.job)))) }
{
    for unit in job_units(geometry, &traced.job) {
        let owner = Owner {
            whole: traced,
            cut: Cut::InUnit(unit),
        };
        put_piece(owners, most, owner)?;
    }
    Ok(())
}

/// Puts the pieces of the command at the end, up to `most` pieces.
fn put_pieces<'a>(
    owners: &mut Vec<Owner<'a>>,
    most: usize,
    judging: Judging,
    geometry: &Geometry,
    reads: Reads,
    traced: &'a TracedJob,
) -> Result<(), NoMemory>
    ensures { (ps : List Piece) → map (λ o. piece o.whole.now o.cut) owners.old.items ≡ take most ps
        → OnOk result (map (λ o. piece o.whole.now o.cut) owners.new.items
        ≡ take most (ps ++ pieces_of judging geometry.now reads traced.now)) }
{
    match cuts_of(judging, geometry, reads, traced) {
        Cuts::Blocks(blocks) => put_blocks(owners, most, traced, blocks),
        Cuts::Units => put_units(owners, most, geometry, traced),
        Cuts::Whole => {
            let owner = Owner {
                whole: traced,
                cut: Cut::Whole,
            };
            put_piece(owners, most, owner)
        }
    }
}

/// The first pieces of a trace's commands, at most `most`, each at the place of its number: what a record that explains the trace
/// has as its jobs there. The time is linear in the trace and in `most`.
pub fn first_pieces<'a>(
    alloc: Global,
    judging: Judging,
    trace: &'a Trace,
    most: usize,
) -> Result<Vec<Owner<'a>>, NoMemory>
    ensures { IfOk result (λ owners. map (λ o. piece o.whole.now o.cut) owners.items ≡ take most (pieces judging «trace».now)) }
{
    let mut owners = Vec::new(alloc);
    for number in 0..trace.jobs.len() {
        if owners.len() >= most {
            return Ok(owners);
        }
        put_pieces(
            &mut owners,
            most,
            judging,
            &trace.geometry,
            trace.reads,
            &trace.jobs[number],
        )?;
    }
    Ok(owners)
}

/// All pieces of a trace's commands, each at the place of its number: what a record that explains the trace has as its first jobs.
pub fn traced_pieces<'a>(
    alloc: Global,
    judging: Judging,
    trace: &'a Trace,
) -> Result<Vec<Owner<'a>>, NoMemory>
    ensures { IfOk result (λ owners. map (λ o. piece o.whole.now o.cut) owners.items ≡ pieces judging «trace».now) }
{
    let owners = first_pieces(alloc, judging, trace, usize::MAX)?;
    if owners.len() < usize::MAX {
        Ok(owners)
    } else {
        // No memory holds that many.
        Err(AllocError)
    }
}
