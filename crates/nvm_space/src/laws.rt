//! What holds of the histories of all units by their definitions alone. Each law is a call that does nothing
//! and whose contract is the law.
ghost use Rattle.std.specs.Prelude.{◌≡◌, ℕ, ◌<◌, ◌≤◌, List, Result, get_or, length, map, set, take};
ghost use Rattle.std.specs.List.{flat_map};
ghost use Rattle.nvm_record.specs.Lists.{IsAt};
ghost use Rattle.nvm_record.specs.Medium.{zero_medium};
ghost use Rattle.nvm_record.specs.Step.{Operation, statuses_of};
ghost use Rattle.nvm_geometry.specs.Boundaries.{unit_number};
ghost use Rattle.nvm_geometry.specs.Large.{regions_of};
ghost use Rattle.nvm_geometry.specs.Namespace.{Namespace};
ghost use Rattle.nvm_store.specs.Call.{Call};
ghost use Rattle.nvm_store.specs.History.{replay_of};
ghost use Rattle.nvm_store.specs.HistoryEntry.{HistoryEntry};
ghost use Rattle.nvm_store.specs.PlacedRun.{RunStep, IsRunFrom, HasItsAnswer, answers, changes, entries_in};
ghost use Rattle.nvm_store.specs.Point.{point};
ghost use Rattle.nvm_unit.specs.Machine.{AreMarked, UnitState};
ghost use Rattle.nvm_unit.specs.Passes.{UnitName};
ghost use Rattle.nvm_unit.specs.Replies.{Makes, Observes, entry_of_job};
ghost use Rattle.nvm_unit.specs.declared.replies.Changed.{Changed as ChangeReply};
ghost use Rattle.nvm_unit.specs.declared.replies.Changed.TheVariants.{Done};
ghost use Rattle.nvm_unit.specs.declared.replies.ObserveFault.{ObserveFault};
ghost use Rattle.nvm_unit.specs.declared.replies.Observed.{Observed as LookReply};
ghost use Rattle.nvm_unit.specs.declared.views.PassView.{PassView};
ghost use Rattle.nvm_space.specs.Closing.{EndsWhole};
ghost use Rattle.nvm_space.specs.Moment.{AreStatesOf, ChangeRests, HasBeenSeen, LookRests, histories_of};
ghost use Rattle.nvm_space.specs.Ports.{PortState, AreAllPortsOf, IsPortOf};
ghost use Rattle.nvm_space.specs.Spaces.{SpaceName, IsLaidOut};
ghost use Rattle.nvm_space.specs.Shuffle.{AreLawfulHistories, IsShuffle, StandsAtItsPoint};
ghost use Rattle.nvm_space.specs.Shuffle.{count_of_unit, entries_of_unit, unit_of_entry};

use nvm_record::laws::{looks_change_nothing, steps_are_local};
use nvm_unit::laws::{
    beginnings_of_beginnings_begin, changes_mark_their_points, changes_rest_on_their_points,
    events_lead_to_sound_states, looks_mark_their_points, looks_rest_on_their_points,
};

/// Units don't disturb one another. Each shuffle of the units' lawful histories is a run of the step on the
/// whole namespace. An entry has the same statuses there as at its place in its unit's history. And after any
/// number of entries of a shuffle each LBA has the block that it has after as many of them as are of its unit; after
/// all of them, that which its unit ends with.
pub fn shuffles_are_runs()
    ensures run { (ns : Namespace) (histories : List (List HistoryEntry)) (all : List HistoryEntry)
        → AreLawfulHistories ns histories → IsShuffle ns histories all
        → IsRunFrom ns.block_size (zero_medium ns.block_size) (map changes all) }
    ensures place { (ns : Namespace) (histories : List (List HistoryEntry)) (all history : List HistoryEntry)
        (i : ℕ) (entry : HistoryEntry) → IsShuffle ns histories all → IsAt all i entry
        → IsAt histories (unit_of_entry ns entry) history
        → IsAt history (count_of_unit ns (unit_of_entry ns entry) (take i all)) entry }
    ensures statuses { (ns : Namespace) (histories : List (List HistoryEntry)) (all history : List HistoryEntry)
        (i : ℕ) (entry : HistoryEntry) → AreLawfulHistories ns histories → IsShuffle ns histories all
        → IsAt all i entry → IsAt histories (unit_of_entry ns entry) history
        → statuses_of entry.operation (point ns.block_size all i) ≡ statuses_of entry.operation
        (point ns.block_size history (count_of_unit ns (unit_of_entry ns entry) (take i all))) }
    ensures medium { (ns : Namespace) (histories : List (List HistoryEntry)) (all history : List HistoryEntry)
        (n lba : ℕ) → AreLawfulHistories ns histories → IsShuffle ns histories all
        → IsAt histories (unit_number ns lba) history → point ns.block_size all n lba
        ≡ point ns.block_size history (count_of_unit ns (unit_number ns lba) (take n all)) lba }
    ensures end { (ns : Namespace) (histories : List (List HistoryEntry)) (all history : List HistoryEntry)
        (lba : ℕ) → AreLawfulHistories ns histories → IsShuffle ns histories all
        → IsAt histories (unit_number ns lba) history
        → replay_of ns.block_size all lba ≡ replay_of ns.block_size history lba }
{
    steps_are_local();
}

/// There is a shuffle: the histories one after the other, in the order of the units.
pub fn there_is_a_shuffle()
    ensures { (ns : Namespace) (histories : List (List HistoryEntry)) → AreLawfulHistories ns histories
        → IsShuffle ns histories (flat_map (λ history. history) histories) }
{}

/// The histories with which the units of a space end are those of which the other laws here speak.
pub fn units_end_with_lawful_histories()
    ensures { (s : SpaceName) (ports : List PortState) (histories : List (List HistoryEntry)) → IsLaidOut s
        → length histories ≡ length s.units
        → ((k : ℕ) (unit : UnitName) (history : List HistoryEntry) → IsAt s.units k unit → IsAt histories k history
        → EndsWhole k unit ports history)
        → AreLawfulHistories (regions_of s.namespace) histories }
{}

/// A call that rests on a point of a unit's history has its answer wherever a shuffle has exactly that point's
/// entries of the unit before it, and there is such a place for each point. So a shuffle with calls between
/// its entries, each at such a place, is a run of the step on the whole namespace.
pub fn calls_keep_their_answers()
    ensures answer { (ns : Namespace) (histories : List (List HistoryEntry)) (all : List HistoryEntry) (n : ℕ)
        (call : Call) → AreLawfulHistories ns histories → IsShuffle ns histories all
        → StandsAtItsPoint ns histories (take n all) call
        → HasItsAnswer (answers call) (point ns.block_size all n) }
    ensures points { (ns : Namespace) (histories : List (List HistoryEntry)) (all history : List HistoryEntry)
        (unit k : ℕ) → IsShuffle ns histories all → IsAt histories unit history
        → (n : ℕ) × (n ≤ length all) × (entries_of_unit ns unit (take n all) ≡ take k history) }
    ensures run { (ns : Namespace) (histories : List (List HistoryEntry)) (run : List RunStep)
        → AreLawfulHistories ns histories → IsShuffle ns histories (entries_in run)
        → ((i : ℕ) (call : Call) → IsAt run i (answers call)
        → StandsAtItsPoint ns histories (entries_in (take i run)) call)
        → IsRunFrom ns.block_size (zero_medium ns.block_size) run }
{
    looks_change_nothing();
    steps_are_local();
}

/// What was answered by a moment rests on that moment's histories, whether the space keeps them or not. A moment is any list of
/// states that the units can reach; that the real one is among them is the rule of the units' table, and no call says it. The
/// histories are lawful, so the laws above speak of them, and each entry is one of its pass's own. A change or a look whose pass has
/// been seen there has its answer at a point of its unit's history: what the step gives, or that there was no memory or no room. The
/// point isn't before what the pass had seen. The entry of a change that was done is there.
pub fn answers_rest_on_the_histories_of_any_moment()
    ensures lawful { (s : SpaceName) (states : List UnitState) → IsLaidOut s → AreStatesOf s states
        → AreLawfulHistories (regions_of s.namespace) (histories_of states) }
    ensures own { (s : SpaceName) (states : List UnitState) (k : ℕ) (unit : UnitName) (state : UnitState)
        → AreStatesOf s states → IsAt s.units k unit → IsAt states k state → AreMarked state }
    ensures changed { (s : SpaceName) (states : List UnitState) (k : ℕ) (unit : UnitName) (state : UnitState)
        (changed : ChangeReply) (p q : PassView) (job : ℕ) (op : Operation) → AreStatesOf s states → IsAt s.units k unit
        → IsAt states k state → Makes changed p job op q → HasBeenSeen q.seen state → ChangeRests changed p op state.history }
    ensures done { (s : SpaceName) (states : List UnitState) (k : ℕ) (unit : UnitName) (state : UnitState) (n : ℕ)
        (p q : PassView) (job : ℕ) (op : Operation) → AreStatesOf s states → IsAt s.units k unit → IsAt states k state
        → Makes (Done n) p job op q → HasBeenSeen q.seen state → IsAt state.history n (entry_of_job p job op) }
    ensures looked { (s : SpaceName) (states : List UnitState) (k : ℕ) (unit : UnitName) (state : UnitState)
        (answer : Result LookReply ObserveFault) (p q : PassView) (op : Operation) → AreStatesOf s states
        → IsAt s.units k unit → IsAt states k state → Observes answer p op q → HasBeenSeen q.seen state
        → LookRests answer p op state.history }
{
    events_lead_to_sound_states();
    changes_rest_on_their_points();
    looks_rest_on_their_points();
    changes_mark_their_points();
    looks_mark_their_points();
    beginnings_of_beginnings_begin();
}

/// The ports of a space stay all its ports while calls change them in place. The port at a place is one of the space, and a port
/// of the space with its number may be there instead.
pub fn ports_are_changed_in_place()
    ensures of { (s : SpaceName) (ports : List PortState) (w : ℕ) (port : PortState) → AreAllPortsOf s ports
        → w < length ports → port ≡ get_or ports w port → IsPortOf s port }
    ensures all { (s : SpaceName) (ports : List PortState) (w : ℕ) (port after : PortState) → AreAllPortsOf s ports
        → w < length ports → port ≡ get_or ports w port → IsPortOf s after → after.number ≡ port.number
        → AreAllPortsOf s (set ports w after) }
{}
