use nvm_geometry::GeometryFault;
use nvm_list::Expected;
use nvm_trace::TraceFault;
use thiserror::Error;

/// What was expected in a line at the first place where something else stands.
#[derive(Clone, Copy, Debug, PartialEq, Eq, Error)]
pub enum TraceExpected {
    /// The first line with words is no head.
    #[error("expected trace, then nsze, block, nabsn, nabo, nawun and nacwu, each with its number, maybe awun and acwu with theirs, first with its number, start zeroes or start unknown, reads atomic, reads whole or reads by-blocks, and maybe deallocated zeroes, deallocated ones or deallocated either")]
    Head,
    /// The head's numbers are no namespace's.
    #[error("expected the numbers of a namespace: {0}")]
    Geometry(GeometryFault),
    /// The first word isn't a time at which something can begin.
    #[error("expected a time from 1 at which it began")]
    Began,
    /// The second word isn't a time.
    #[error("expected a time at which it ended, or - if it never did")]
    Ended,
    /// The third word is no host's number.
    #[error("expected a host from 1 to 64")]
    Host,
    /// The word before a command isn't a number that a command identifier can be.
    #[error("expected a command identifier from 0 to 65535")]
    Cid,
    /// The words of a command aren't as in a command list.
    #[error("{0}")]
    Words(Expected),
    /// `cid=` says another identifier than the one before the command.
    #[error("expected no cid= behind a command's identifier")]
    OtherCid,
    /// It ended, and no `=` tells how.
    #[error("expected = and what came back, as in = 0/00")]
    Reply,
    /// It never ended, and `=` tells how it did.
    #[error("expected no = behind what never ended")]
    NoReply,
    /// A word behind `=` is no status.
    #[error("expected a status, as in 0/00")]
    Status,
    /// Something stands behind what came back.
    #[error("expected nothing more in this line")]
    End,
    /// The trace so far can't have this command or pair.
    #[error("expected what a trace can have, but {0}")]
    Unfit(TraceFault),
}
