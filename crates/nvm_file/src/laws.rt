//! What holds of records, traces and their spellings by their definitions alone. Each law is a call that does nothing and whose contract
//! is the law.
ghost use Rattle.std.specs.Prelude.{◌≡◌, ◌↔◌, ◌<◌, ℕ, All, List};
ghost use Rattle.nvm_audit.specs.declared.audit_fault.AuditFault.{AuditFault as Fault};
ghost use Rattle.nvm_audit.specs.declared.verdict.Verdict.{Verdict as VerdictNumbers};
ghost use Rattle.nvm_audit.specs.LawfulRecord.{IsLawfulRecord};
ghost use Rattle.nvm_audit.specs.Recordable.{IsRecordable};
ghost use Rattle.nvm_audit.specs.RecordChecks.{IsFirstFault};
ghost use Rattle.nvm_audit.specs.RecordView.{RecordView};
ghost use Rattle.nvm_audit.specs.Verdict.{IsVerdict};
ghost use Rattle.nvm_file.specs.Fits.{FitsItsFields};
ghost use Rattle.nvm_file.specs.RecordFile.{IsRecordFile};
ghost use Rattle.nvm_file.specs.Spelling.{record_bytes};
ghost use Rattle.nvm_file.specs.TraceFile.{IsTraceFile};
ghost use Rattle.nvm_file.specs.TraceFits.{TraceFits};
ghost use Rattle.nvm_file.specs.TraceSpelling.{trace_bytes};
ghost use Rattle.nvm_file.specs.Upgrade.{AreKnown, second_version};
ghost use Rattle.nvm_trace.specs.Traceable.{IsTraceable};
ghost use Rattle.nvm_trace.specs.TraceView.{TraceView};

use nvm_geometry::laws::each_unit_has_one_place;

/// A record is lawful exactly where its second version is, and both have one verdict, or else one first fault. A file can hold
/// the second version where it can hold the record, and no job has opcode 09h as an unknown one.
pub fn upgraded_records_are_judged_alike()
    ensures lawful { (r : RecordView) → IsLawfulRecord (second_version r) ↔ IsLawfulRecord r }
    ensures verdict { (r : RecordView) (v : VerdictNumbers) → IsVerdict (second_version r) v ↔ IsVerdict r v }
    ensures fault { (r : RecordView) (f : Fault) → IsFirstFault (second_version r) f ↔ IsFirstFault r f }
    ensures held { (r : RecordView) → IsRecordable r → AreKnown r.jobs → IsRecordable (second_version r) }
{}

/// A file of a record is the record's one spelling, byte for byte, so what was read is written as it stood.
pub fn files_are_spellings()
    ensures { (bytes : List ℕ) (r : RecordView) → All (λ b. b < 256) bytes → IsRecordFile bytes r → bytes ≡ record_bytes r }
{}

/// A trace's file is the trace's one spelling, byte for byte, so what was read is written as it stood.
pub fn trace_files_are_spellings()
    ensures { (bytes : List ℕ) (t : TraceView) → All (λ b. b < 256) bytes → IsTraceFile bytes t → bytes ≡ trace_bytes t }
{}

/// The spelling of a trace that can be made, and whose numbers fit their fields, is read as just that trace. So of such a trace the
/// spelling is a file, and nothing else is.
pub fn spellings_are_traces()
    ensures read { (t : TraceView) → IsTraceable t → TraceFits t → IsTraceFile (trace_bytes t) t }
    ensures alone { (bytes : List ℕ) (t : TraceView) → All (λ b. b < 256) bytes → IsTraceable t → TraceFits t
        → IsTraceFile bytes t ↔ (bytes ≡ trace_bytes t) }
{}

/// The spelling of a record that a file can hold, and whose numbers fit their fields, is read as just that record. So of such a
/// record the spelling is a file, and nothing else is.
pub fn spellings_are_files()
    ensures read { (r : RecordView) → IsRecordable r → FitsItsFields r → IsRecordFile (record_bytes r) r }
    ensures alone { (bytes : List ℕ) (r : RecordView) → All (λ b. b < 256) bytes → IsRecordable r → FitsItsFields r
        → IsRecordFile bytes r ↔ (bytes ≡ record_bytes r) }
{
    each_unit_has_one_place();
}
