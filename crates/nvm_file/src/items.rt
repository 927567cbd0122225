//! So many items of a file, one after the other.
ghost use Rattle.std.specs.Prelude.{◌≡◌, ◌∷◌, [], ◌++◌, ◌<◌, ℕ, IfErr, IfOk, OnOk};
ghost use Rattle.nvm_file.specs.declared.record_fault.RecordFault.TheVariants.{NoMemory};
ghost use Rattle.nvm_file.specs.declared.rest.Rest.{Rest as Left};
ghost use Rattle.nvm_file.specs.Inside.Items.{HasRead};

use crate::fields::room_for;
use crate::record_fault::RecordFault;
use crate::rest::Rest;
use std::alloc::Global;

/// `count` items of at least so many bytes. `read` reads the one of a place, and gives what is left behind it.
pub fn items_of<
    'a,
    T: Drop,
    E: From<RecordFault>,
    F: Fn(u32, Rest<'a>) -> Result<(T, Rest<'a>), E>,
>(
    alloc: Global,
    count: u32,
    least_bytes: usize,
    from: Rest<'a>,
    read: F,
) -> Result<(Vec<T>, Rest<'a>), E>
    requires some { 0 < least_bytes }
    requires callable { (place : ℕ) (rest : Left) → place < count → F.pre read place rest }
    ensures { HasRead (F.post read) (E.from_gives NoMemory) count from.entry result }
{
    let mut items = with_room(alloc, count, least_bytes, from)?;
    let mut rest = from;
    for place in 0..count {
        let (item, after) = read(place, rest)?;
        add(&mut items, item)?;
        rest = after;
    }
    Ok((items, rest))
}

/// No item yet, with room for as many as what is left can hold.
fn with_room<T>(
    alloc: Global,
    count: u32,
    least_bytes: usize,
    from: Rest<'_>,
) -> Result<Vec<T>, RecordFault>
    requires { 0 < least_bytes }
    ensures items { IfOk result (λ items. items.items ≡ []) }
    ensures fault { IfErr result (λ e. e ≡ NoMemory) }
{
    let room = room_for(count as usize, least_bytes, from);
    Ok(Vec::with_capacity(alloc, room)?)
}

fn add<T: Drop>(items: &mut Vec<T>, item: T) -> Result<(), RecordFault>
    ensures items { OnOk result (items.new.items ≡ items.old.items ++ (item ∷ [])) }
    ensures fault { IfErr result (λ e. e ≡ NoMemory) }
{
    items.push(item)?;
    Ok(())
}
