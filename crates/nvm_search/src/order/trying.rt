//! The searches of a part, one after the other.
use crate::order::acts::NONE;
use crate::order::board::Board;
use crate::order::derivation::Derivation;
use crate::order::known::Known;
use crate::order::making::Part;
use crate::order::search::Search;
use nvm_record::NoMemory;

/// How many acts are looked at in a part before it is asked what comes before what: so many, and some for each act.
const FEW: u64 = 10_000;

const EACH_ACT: u64 = 8;
/// Which part of the effort that is left is spent on a part before others have to have points in its place.
const TRIES: u64 = 32;

/// Why nothing was found for a part.
#[derive(Clone, Copy)]
pub enum Miss {
    /// The search got stuck at this point.
    Stuck(u32),
    /// No order explains the part's points.
    Nothing,
}

/// How a part is searched.
#[derive(Clone, Copy, PartialEq, Eq)]
enum Way {
    /// By moves that look right.
    Plainly,
    /// By them, and by what comes before what.
    Derived,
    /// By every move. The second time as the last.
    Through,
    ThroughAgain,
}

/// A search's end, which has an order of the part's points. Unless it is the last try, none goes on for as long as it might.
pub fn searched<'p>(
    known: &mut Known<'_, '_>,
    part: &'p Part,
    is_last: bool,
) -> Result<Result<Board<'p>, Miss>, NoMemory> {
    let alloc = known.alloc;
    let mut stuck = NONE;
    for way in [Way::Plainly, Way::Through, Way::Derived, Way::ThroughAgain] {
        let is_through = matches!(&way, Way::Through | Way::ThroughAgain);
        if is_through && part.lists.has_anything() {
            continue;
        }
        let most = match way {
            Way::Plainly => u64::from(part.count())
                .saturating_mul(EACH_ACT)
                .saturating_add(FEW)
                .min(known.left / 2),
            Way::Derived | Way::ThroughAgain if is_last => known.left / 2,
            _ => known.left / TRIES,
        };
        let derived = if way == Way::Derived {
            Derivation::new(alloc, part)?
        } else {
            Derivation::none(alloc, part)?
        };
        if derived.order.is_absurd && !part.is_chosen {
            return Ok(Err(Miss::Nothing));
        }
        let seed = if way == Way::Derived { 1 } else { 0 };
        let mut search = Search::new(alloc, part, most, seed, derived)?;
        let answer = if is_through {
            search.run_through()?
        } else {
            search.run()?
        };
        let spent = most.saturating_sub(search.left_in_all);
        known.left = known.left.saturating_sub(spent);
        match answer {
            Some(true) => return Ok(Ok(search.board)),
            Some(false) if !part.is_chosen && !part.starts_unknown => {
                return Ok(Err(Miss::Nothing));
            }
            _ => {}
        }
        if !is_through {
            stuck = search.stuck_at();
        }
    }
    known.left = known.left.saturating_sub(u64::from(part.count()));
    Ok(Err(Miss::Stuck(stuck)))
}
