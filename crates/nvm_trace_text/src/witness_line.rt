//! The line that tells whether a record explains a trace.
ghost use Rattle.std.specs.Prelude.{Some};
ghost use Rattle.nvm_trace_text.specs.WitnessLine as spec;

use nvm_audit::Spot;
use nvm_trace::{Explained, WitnessFault};
use std::fmt;
use std::fmt::{Display, Formatter};

/// The line of an explained trace, with its line feed.
#[derive(Clone, Copy)]
pub struct ExplainedLine(pub Explained);

impl Display for ExplainedLine {
    ghost output = { λ line. Some (spec.explained_line line.0) };

    #[tactic(auto, unfolding(crate::specs::WitnessLine::explained_line))]
    fn fmt<W: fmt::Write>(&self, f: &mut Formatter<W>) -> fmt::Result {
        let Explained {
            jobs,
            units,
            steps,
            excused,
            preparations,
        } = self.0;
        write!(
            f,
            "explained jobs {jobs} units {units} steps {steps} excused {excused} preparations {preparations}\n"
        )
    }
}

/// The line of the first fault of a trace and a record, with its line feed.
#[derive(Clone, Copy)]
pub struct UnexplainedLine(pub WitnessFault);

impl Display for UnexplainedLine {
    ghost output = { λ line. Some (spec.unexplained_line line.0) };

    #[tactic(auto, unfolding(crate::specs::WitnessLine::unexplained_with))]
    fn fmt<W: fmt::Write>(&self, f: &mut Formatter<W>) -> fmt::Result {
        let name = self.0.name();
        match (self.0.job(), self.0.spot()) {
            (Some(job), Some(Spot { unit, place })) => write!(
                f,
                "unexplained {name} job {job} unit {unit} place {place}\n"
            ),
            (Some(job), None) => write!(f, "unexplained {name} job {job} unit - place -\n"),
            (None, _) => write!(f, "unexplained {name} job - unit - place -\n"),
        }
    }
}
