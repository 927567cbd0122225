//! Laws of this crate's definitions, for the crates above. Each function does nothing: its contract
//! is the law, which a caller then knows.
ghost use Rattle.std.specs.Prelude.{◌≡◌, ◌≢◌, ◌↔◌, ℕ, true, ◌+◌, ◌*◌, ◌≤◌, List, [], ◌∷◌, ◌++◌, All, Some, length};
ghost use Rattle.nvm_record.specs.declared.status.Status.{Status as CommandStatus};
ghost use Rattle.nvm_record.specs.declared.status.Statuses.{Statuses as Told};
ghost use Rattle.nvm_record.specs.declared.status.Statuses.TheVariants.{One, Two};
ghost use Rattle.nvm_record.specs.Deeds.{IsAct, IsLook, IsSingle, IsFailedPair};
ghost use Rattle.nvm_record.specs.Lists.{IsAt};
ghost use Rattle.nvm_record.specs.Medium.{Medium, HasBlockSize, range, zero_medium};
ghost use Rattle.nvm_record.specs.Status.{IsSuccess, successful_completion, aborted_due_to_failed_fused_command};
ghost use Rattle.nvm_record.specs.Step.{Operation, AgreeOn, statuses_of, medium_after, compares_equal};
ghost use Rattle.nvm_store.specs.declared.act_ref.ActRef.{ActRef as Lent};
ghost use Rattle.nvm_store.specs.declared.look.Look.{Look as Asked};
ghost use Rattle.nvm_store.specs.declared.place.Place.{Place as UnitPlace};
ghost use Rattle.nvm_store.specs.ActRef.{lent_operation_of};
ghost use Rattle.nvm_store.specs.Call.{Call, IsCallOn};
ghost use Rattle.nvm_store.specs.Contents.{Contents, Holds, Covers, Succeeds};
ghost use Rattle.nvm_store.specs.History.{replay_of, CanFollow, IsLawfulHistory};
ghost use Rattle.nvm_store.specs.HistoryEntry.{HistoryEntry};
ghost use Rattle.nvm_store.specs.Look.{look_operation_of};
ghost use Rattle.nvm_store.specs.Operation.{write_operation, pair_operation};
ghost use Rattle.nvm_store.specs.PassOrder.{NeverGoBack, StepsNeverGoBack, entries_of_pass, steps_by};
ghost use Rattle.nvm_store.specs.PlacedRun.{RunStep, IsRunFrom, IsPlacedRun, entries_in, calls_in, calls_by, placed_run};
ghost use Rattle.nvm_store.specs.Point.{point, RestsOn};

use nvm_record::laws::{looks_change_nothing, steps_are_local, steps_keep_block_sizes};

/// The replay of a history with one entry more is that entry's step on the replay of the others.
pub fn replay_of_one_more()
    ensures { (size : ℕ) (history : List HistoryEntry) (entry : HistoryEntry)
        → replay_of size (history ++ entry ∷ [])
        ≡ medium_after size entry.operation (replay_of size history) }
{}

/// A history with one entry more is lawful exactly where the others are, and the entry can follow
/// them.
pub fn lawful_with_one_more()
    ensures { (place : UnitPlace) (history : List HistoryEntry) (entry : HistoryEntry)
        → IsLawfulHistory place (history ++ entry ∷ [])
        ↔ (IsLawfulHistory place history × CanFollow place history entry) }
{}

/// What a lawful history begins with is lawful.
pub fn lawful_beginning()
    ensures { (place : UnitPlace) (begin rest : List HistoryEntry)
        → IsLawfulHistory place (begin ++ rest) → IsLawfulHistory place begin }
{}

/// A point is the same in each history that begins with its entries.
pub fn point_of_beginning()
    ensures { (size : ℕ) (begin rest : List HistoryEntry) (n : ℕ) → n ≤ length begin
        → point size (begin ++ rest) n ≡ point size begin n }
{}

/// The next point is the step of the entry between.
pub fn next_point()
    ensures { (size : ℕ) (history : List HistoryEntry) (n : ℕ) (entry : HistoryEntry) → IsAt history n entry
        → point size history (n + 1) ≡ medium_after size entry.operation (point size history n) }
{}

/// The point at a history's end is its replay.
pub fn point_at_the_end()
    ensures { (size : ℕ) (history : List HistoryEntry)
        → point size history (length history) ≡ replay_of size history }
{}

/// The replay of a lawful history has the unit's block size, and so has each of its points.
pub fn lawful_replay_has_block_size()
    ensures replay { (place : UnitPlace) (history : List HistoryEntry) → IsLawfulHistory place history
        → HasBlockSize place.size (replay_of place.size history) }
    ensures points { (place : UnitPlace) (history : List HistoryEntry) (n : ℕ) → IsLawfulHistory place history
        → HasBlockSize place.size (point place.size history n) }
{
    steps_keep_block_sizes();
}

/// Data that was read at a point of a lawful history has exactly the bytes of the range.
pub fn data_at_point_has_its_length()
    ensures { (place : UnitPlace) (history : List HistoryEntry) (n : ℕ) (operation : Operation) (told : Told)
        (bytes : List ℕ) → IsLawfulHistory place history
        → RestsOn place.size history n operation told (Some bytes)
        → length bytes ≡ operation.blocks * place.size }
{
    steps_keep_block_sizes();
    lawful_replay_has_block_size();
}

/// Each unit holds the blocks of some medium.
pub fn some_medium_is_held()
    ensures { (unit : Contents) → (m : Medium) × Holds unit m }
{}

/// All media whose blocks a unit holds agree on the range of an operation that the unit covers. So the
/// operation's statuses and data are the same on them.
pub fn held_media_agree()
    ensures { (unit : Contents) (operation : Operation) (m n : Medium)
        → Covers unit operation → Holds unit m → Holds unit n → AgreeOn operation m n }
{
    steps_are_local();
}

/// An operation that succeeds on one medium whose blocks the unit holds succeeds on the unit.
pub fn success_on_held()
    ensures { (unit : Contents) (operation : Operation) (m : Medium)
        → Covers unit operation → Holds unit m → IsSuccess (statuses_of operation m)
        → Succeeds unit operation }
{
    held_media_agree();
    steps_are_local();
}

/// An act stands for the operation of an act, and a look for that of a look.
pub fn acts_and_looks()
    ensures acts { (act : Lent) → IsAct (lent_operation_of act).deed }
    ensures looks { (look : Asked) → IsLook (look_operation_of look).deed }
{}

/// An act that isn't a pair succeeds on every medium.
pub fn single_act_succeeds()
    ensures { (operation : Operation) (m : Medium) → IsAct operation.deed → IsSingle operation.deed
        → statuses_of operation m ≡ One successful_completion }
{}

/// An act succeeds exactly where it isn't a pair whose comparison fails.
pub fn act_succeeds_unless_failed_pair()
    ensures { (operation : Operation) (m : Medium) → IsAct operation.deed
        → IsSuccess (statuses_of operation m) ↔ (¬ IsFailedPair operation m) }
{}

/// A pair succeeds exactly where its comparison holds, and its Write is done then: what it does to the
/// medium is what the Write does.
pub fn pair_that_succeeds()
    ensures success { (first blocks : ℕ) (compare write : List ℕ) (m : Medium)
        → IsSuccess (statuses_of (pair_operation first blocks compare write) m)
        ↔ (compares_equal (range m first blocks) compare ≡ true) }
    ensures written { (size first blocks : ℕ) (compare write : List ℕ) (m : Medium) (lba : ℕ)
        → IsSuccess (statuses_of (pair_operation first blocks compare write) m)
        → medium_after size (pair_operation first blocks compare write) m lba
        ≡ medium_after size (write_operation first blocks write) m lba }
{}

/// A pair whose comparison fails has its status, which isn't success, and then 0/09 for the Write.
pub fn pair_that_fails()
    ensures { (operation : Operation) (m : Medium) → IsFailedPair operation m
        → (status : CommandStatus)
        × (statuses_of operation m ≡ Two status aborted_due_to_failed_fused_command)
        × (status ≢ successful_completion) }
{}

/// A placed run of a lawful history and of calls that rest on their points is a run of the step from the
/// zero medium: every entry succeeds, and each call has the answer that it got.
pub fn placed_runs_are_runs()
    ensures { (place : UnitPlace) (history : List HistoryEntry) (calls : List Call) (run : List RunStep)
        → IsLawfulHistory place history → All (IsCallOn place history) calls
        → IsPlacedRun history calls run → IsRunFrom place.size (zero_medium place.size) run }
{
    looks_change_nothing();
}

/// There is a placed run exactly where the points of each pass's calls never go back, and none is past the
/// history's end. One of them is that in which the calls at one point keep the order of their list.
pub fn there_is_a_placed_run()
    ensures placed { (history : List HistoryEntry) (calls : List Call)
        → ((pass : ℕ) → NeverGoBack 0 (length history) (calls_by pass calls))
        → IsPlacedRun history calls (placed_run history calls) }
    ensures back { (history : List HistoryEntry) (calls : List Call) (run : List RunStep) (pass : ℕ)
        → IsPlacedRun history calls run → NeverGoBack 0 (length history) (calls_by pass calls) }
{}

/// A placed run has each pass's steps in the order in which the pass made them: its entries and its calls,
/// where these never go back.
pub fn placed_runs_keep_order()
    ensures { (history : List HistoryEntry) (calls : List Call) (run own : List RunStep) (pass : ℕ)
        → IsPlacedRun history calls run → StepsNeverGoBack history 0 own
        → entries_in own ≡ entries_of_pass pass history → calls_in own ≡ calls_by pass calls
        → steps_by pass run ≡ own }
{}
