//! In how many units something is counted, and in which most of it.
ghost use Rattle.std.specs.Prelude.{◌≡◌};
ghost use Rattle.nvm_explain.specs.Most as spec;

use std::fmt;
use std::fmt::{Display, Formatter};

/// How many units have more than `least`, and where one has, the most and the first unit that has it.
#[derive(Clone, Copy)]
pub(crate) struct MostText<'a> {
    pub(crate) least: u64,
    /// What was counted in each unit.
    pub(crate) counts: &'a [u64],
}

impl Display for MostText<'_> {
    fn fmt<W: fmt::Write>(&self, f: &mut Formatter<W>) -> fmt::Result {
        let MostText { least, counts } = *self;
        let units = units_above(counts, least);
        let most = most_of(counts);
        if most > least {
            let unit = first_with(counts, most);
            write!(f, "{units} most {most} unit {unit}")
        } else {
            write!(f, "{units}")
        }
    }
}

/// How many units have more than `least`.
fn units_above(counts: &[u64], least: u64) -> usize
    ensures { result ≡ spec.units_above least counts.now }
{
    counts.iter().filter(|count| **count > least).count()
}

/// The most in a unit, or 0 where there is none.
fn most_of(counts: &[u64]) -> u64
    ensures { result ≡ spec.most_of counts.now }
{
    counts.iter().fold(0, |most, count| most.max(*count))
}

/// The first unit that has exactly this count, or the number of units.
fn first_with(counts: &[u64], count: u64) -> usize
    ensures { result ≡ spec.first_with count counts.now }
{
    for (unit, other) in counts.iter().enumerate() {
        if *other == count {
            return unit;
        }
    }
    counts.len()
}
