ghost use Rattle.std.specs.Prelude.{◌≡◌, ◌<◌, List, [], ◌∷◌, length, IfNone, IfSome, OnSome};
ghost use Rattle.nvm_plan.specs.Jobs.{IsPairing};
ghost use Rattle.nvm_plan.specs.declared.job.Body.{Body as Paired};

use crate::job::Body;
use crate::profile::is_fused_pair;
use nvm_record::Command;
use std::collections::VecDeque;

/// Takes the first job of a host's commands: the first command, with the second where the two are a
/// fused pair.
pub fn next_body(commands: &mut VecDeque<Command>) -> Option<Body>
    // With the jobs of what is left, it makes the jobs of all.
    ensures some { IfSome result (λ body. (rest : List Paired) → IsPairing commands.new.items rest
        → IsPairing commands.old.items (body ∷ rest)) }
    ensures shorter { OnSome result (length commands.new.items < length commands.old.items) }
    ensures none { IfNone result (commands.old.items ≡ []) }
{
    let first = commands.pop_front()?;
    let Some(second) = commands.front() else {
        return Some(Body::Single(first));
    };
    if !is_fused_pair(&first, second) {
        return Some(Body::Single(first));
    }
    let second = commands.pop_front()?;
    Some(Body::Pair(first, second))
}
