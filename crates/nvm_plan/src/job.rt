ghost use Rattle.std.specs.Prelude.{◌≡◌};

use nvm_record::Command;
use std::alloc::AllocError;

/// What is done as one: the work of one host's turn.
#[derive(Debug, PartialEq, Eq, Drop)]
pub struct Job {
    /// The number of the host, from 1.
    pub host: u16,
    /// Its command or commands.
    pub body: Body,
}

/// One command, or a fused pair (Base Specification, "Fused Operation").
#[derive(Debug, PartialEq, Eq, Drop)]
pub enum Body {
    /// A command by itself.
    Single(Command),
    /// The first command, then the second.
    Pair(Command, Command),
}

/// A copy of the job, which shares its commands' data.
impl Clone for Job {
    ghost is_clone = { λ job copy. copy ≡ job };

    fn clone(&self) -> Result<Job, AllocError> {
        let body = self.body.clone()?;
        Ok(Job {
            host: self.host,
            body,
        })
    }
}

/// A copy of the commands, which shares their data.
impl Clone for Body {
    ghost is_clone = { λ body copy. copy ≡ body };

    fn clone(&self) -> Result<Body, AllocError> {
        match self {
            Body::Single(command) => {
                let command = command.clone()?;
                Ok(Body::Single(command))
            }
            Body::Pair(first, second) => {
                let first = first.clone()?;
                let second = second.clone()?;
                Ok(Body::Pair(first, second))
            }
        }
    }
}
