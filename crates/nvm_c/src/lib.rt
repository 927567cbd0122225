//! The live engine, for C: handles on the ports of a namespace, and jobs that are begun and polled by them. It also has the auditor,
//! for the bytes of a record's file, and the two judges of a trace, for the bytes of its file and of a record's, an order's or a contradiction's.
//!
//! `include/zalkvorn.h` says to C what the exports are. Nothing here waits, wakes or starts a thread.
#![tactic(auto)]

mod address;
mod asking;
mod at_once;
mod audit_code;
mod auditing;
mod carried;
mod code;
mod engine;
mod exports;
mod finding;
mod gather_fault;
mod gathering;
mod handed;
mod handle;
mod histories;
mod identify;
mod line;
mod log;
mod opening;
mod order_witnessing;
mod pairs;
mod port_calls;
mod quiet;
mod reading;
mod record_code;
mod recording;
mod refuting;
mod sharing;
mod telling;
mod trace_code;
mod waiting;
mod window;
mod witnessing;
mod work;
