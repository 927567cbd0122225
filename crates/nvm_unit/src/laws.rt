//! Laws of this crate's definitions. Each function does nothing: its contract is the law, which a caller
//! then knows.
ghost use Rattle.std.specs.Prelude.{◌≡◌, ◌≤◌, ℕ, Bool, List, length, true, Result, Ok, Err, None};
ghost use Rattle.nvm_record.specs.declared.status.Statuses.{Statuses};
ghost use Rattle.nvm_record.specs.Step.{Operation};
ghost use Rattle.nvm_store.specs.Answer.{told_by, read_by};
ghost use Rattle.nvm_store.specs.HistoryEntry.{HistoryEntry};
ghost use Rattle.nvm_store.specs.Point.{point, RestsOn};
ghost use Rattle.nvm_unit.specs.declared.bounds.Bounds.{Bounds as UnitBounds};
ghost use Rattle.nvm_unit.specs.declared.replies.Changed.{Changed as ChangeReply};
ghost use Rattle.nvm_unit.specs.declared.replies.Changed.TheVariants.{Done, Failed};
ghost use Rattle.nvm_unit.specs.declared.replies.Observed.{Observed as LookReply};
ghost use Rattle.nvm_unit.specs.declared.replies.ObserveFault.{ObserveFault};
ghost use Rattle.nvm_unit.specs.declared.replies.LookFault.{LookFault};
ghost use Rattle.nvm_unit.specs.declared.replies.Busy.{Busy as BusyReply};
ghost use Rattle.nvm_unit.specs.declared.views.PassView.{PassView as View};
ghost use Rattle.nvm_unit.specs.Ends.{AreAllPassesOf, new_passes, pass_at};
ghost use Rattle.nvm_unit.specs.Machine.{UnitState, IsSound, opening_state};
ghost use Rattle.nvm_record.specs.Lists.{IsAt};
ghost use Rattle.nvm_unit.specs.Events.{Event, Lead};
ghost use Rattle.nvm_unit.specs.Knowledge.{IsKnown};
ghost use Rattle.nvm_unit.specs.Marks.{
  HasKeptMarks,
  HasMarked,
  entries_after,
  mine_after,
  number_of_look,
  number_of_try,
  point_of_look,
};
ghost use Rattle.nvm_unit.specs.Passes.{Finds, IsProperPass, PassState, UnitName};
ghost use Rattle.nvm_unit.specs.Replies.{
  AnswersChange,
  AnswersLook,
  IsBroughtUp,
  Looks,
  Makes,
  MakesOrLearns,
  Meet,
  Observes,
  Waits,
  entry_of_job,
  medium_at,
  pass_after,
  point_of,
};
ghost use Rattle.nvm_unit.specs.Views.{Begins, entries_by, newcomer, shown};

use nvm_store::laws::lawful_with_one_more;

/// Whatever happens to a new unit, its state is sound, and all else is kept that is known of it.
pub fn events_lead_to_sound_states()
    ensures sound { (b : UnitBounds) (events : List Event) (s : UnitState)
        → Lead b (opening_state b) events s → IsSound b s }
    ensures known { (b : UnitBounds) (events : List Event) (s : UnitState)
        → Lead b (opening_state b) events s → IsKnown b s }
{
    lawful_with_one_more();
}

/// What a change was answered rests on its point in each history that begins with what its pass had seen
/// then. Where it was done, its entry is there.
pub fn changes_rest_on_their_points()
    ensures at { (changed : ChangeReply) (p q : View) (job : ℕ) (op : Operation) (history : List HistoryEntry)
        → Makes changed p job op q → Begins q.seen history
        → (n : ℕ) × (n ≤ length history)
        × AnswersChange changed n p.bounds.limit op (point p.bounds.place.size history n) }
    ensures done { (n : ℕ) (p q : View) (job : ℕ) (op : Operation) (history : List HistoryEntry)
        → Makes (Done n) p job op q → Begins q.seen history → IsAt history n (entry_of_job p job op) }
    ensures failed { (n : ℕ) (statuses : Statuses) (p q : View) (job : ℕ) (op : Operation) (history : List HistoryEntry)
        → Makes (Failed n statuses) p job op q → Begins q.seen history
        → RestsOn p.bounds.place.size history n op statuses None }
{}

/// What a look was answered rests on its point in each history that begins with what its pass had seen
/// then.
pub fn looks_rest_on_their_points()
    ensures at { (answer : Result LookReply ObserveFault) (p q : View) (op : Operation) (history : List HistoryEntry)
        → Observes answer p op q → Begins q.seen history
        → (n : ℕ) × (n ≤ length history) × AnswersLook answer n op (point p.bounds.place.size history n) }
    ensures observed { (observed : LookReply) (p q : View) (op : Operation) (history : List HistoryEntry)
        → Observes (Ok observed) p op q → Begins q.seen history
        → RestsOn p.bounds.place.size history observed.point op (told_by observed.answer)
        (read_by observed.answer) }
{}

/// A change adds its point to its pass's marks: no less than anything that the pass had found or seen. The
/// pass has then seen as many entries, and after `Done` its own past them.
pub fn changes_mark_their_points()
    ensures marked { (changed : ChangeReply) (p q : View) (job : ℕ) (op : Operation)
        → Makes changed p job op q → HasMarked (point_of changed) p q }
    ensures entries { (changed : ChangeReply) (p q : View) (job : ℕ) (op : Operation)
        → Makes changed p job op q → length q.seen ≡ entries_after changed }
    ensures mine { (changed : ChangeReply) (p q : View) (job : ℕ) (op : Operation)
        → Makes changed p job op q → q.mine ≡ mine_after changed p job op }
{}

/// A look adds its point to its pass's marks too. The pass has then seen as many entries, and has made none.
pub fn looks_mark_their_points()
    ensures marked { (answer : Result LookReply ObserveFault) (p q : View) (op : Operation)
        → Observes answer p op q → HasMarked (point_of_look answer) p q }
    ensures entries { (answer : Result LookReply ObserveFault) (p q : View) (op : Operation)
        → Observes answer p op q → length q.seen ≡ point_of_look answer }
    ensures mine { (answer : Result LookReply ObserveFault) (p q : View) (op : Operation)
        → Observes answer p op q → q.mine ≡ p.mine }
{}

/// So does a look from what the pass keeps, and a change that is tried once, at the number of entries that their
/// deciding step finds. Where they answer nothing, the pass has seen and done what it had.
pub fn looks_and_tries_mark_what_they_find()
    ensures looked { (answer : Result LookReply LookFault) (keeps : Bool) (p q : View) (op : Operation)
        → Looks answer keeps p op q → HasMarked (number_of_look answer) p q }
    ensures same { (answer : Result LookReply LookFault) (keeps : Bool) (p q : View) (op : Operation)
        → Looks answer keeps p op q → (q.seen ≡ p.seen) × (q.mine ≡ p.mine) }
    ensures tried { (tried : Result ChangeReply BusyReply) (p q : View) (job : ℕ) (op : Operation)
        → MakesOrLearns tried p job op q → HasMarked (number_of_try tried) p q }
    ensures busy { (busy : BusyReply) (p q : View) (job : ℕ) (op : Operation)
        → MakesOrLearns (Err busy) p job op q → (q.seen ≡ p.seen) × (q.mine ≡ p.mine) }
{}

/// A call that is made again until it finds the unit free is one call: what a pass answers after it waited is what it
/// would have answered before.
pub fn waiting_is_no_step()
    ensures changed { (changed : ChangeReply) (p q r : View) (job : ℕ) (op : Operation)
        → Waits p q → Makes changed q job op r → Makes changed p job op r }
    ensures looked { (answer : Result LookReply ObserveFault) (p q r : View) (op : Operation)
        → Waits p q → Observes answer q op r → Observes answer p op r }
    ensures again { (p q r : View) → Waits p q → Waits q r → Waits p r }
{}

/// A pass that is brought up keeps its marks, and what it had seen begins what it has seen then. Passes that
/// met have seen the same.
pub fn passes_brought_up_keep_their_marks()
    ensures up { (p q : View) → IsBroughtUp p q → HasKeptMarks p q }
    ensures met { (p o q r : View)
        → Meet p o q r → HasKeptMarks p q × HasKeptMarks o r × (q.seen ≡ r.seen) }
{}

/// What begins a beginning begins the whole, and has no more entries. Of two that begin one history, the
/// shorter begins the longer.
pub fn beginnings_of_beginnings_begin()
    ensures itself { (history : List HistoryEntry) → Begins history history }
    ensures further { (first second history : List HistoryEntry)
        → Begins first second → Begins second history → Begins first history }
    ensures length { (seen history : List HistoryEntry) → Begins seen history → length seen ≤ length history }
    ensures shorter { (first second history : List HistoryEntry)
        → Begins first history → Begins second history → length first ≤ length second → Begins first second }
{}

/// The passes of a new unit are all its passes, each at the place of its number. None of them has seen or
/// done anything, and such a pass is proper.
pub fn new_passes_are_all()
    ensures all { (unit : UnitName) → AreAllPassesOf unit (new_passes unit) }
    ensures each { (unit : UnitName) (i : ℕ) (pass : PassState)
        → IsAt (new_passes unit) i pass → pass ≡ pass_at unit.table unit.versions (newcomer unit.bounds i) }
    ensures proper { (b : UnitBounds) (number : ℕ) → IsProperPass (newcomer b number) }
{}

/// Each entry of a history is, with its place, among those of the pass whose number it bears; and what
/// is among a pass's entries is at that place of the history and bears its number.
pub fn entries_are_their_passes_own()
    ensures among { (history : List HistoryEntry) (k : ℕ) (entry : HistoryEntry)
        → IsAt history k entry → (i : ℕ) × IsAt (entries_by entry.pass history) i (k, entry) }
    ensures stands { (number : ℕ) (history : List HistoryEntry) (i k : ℕ) (entry : HistoryEntry)
        → IsAt (entries_by number history) i (k, entry) → IsAt history k entry × (entry.pass ≡ number) }
{}

/// The pass of a unit that has one pass finds exactly what it had seen, so what it is answered, and what it has
/// seen and done then, are those of what it had seen.
pub fn a_pass_alone_has_seen_all()
    ensures seen { (p : View) (history : List HistoryEntry)
        → p.bounds.passes ≡ 1 → p.number ≡ 0 → IsProperPass p → Finds (length history) p history
        → history ≡ p.seen }
    ensures changed { (changed : ChangeReply) (p q : View) (job : ℕ) (op : Operation)
        → p.bounds.passes ≡ 1 → p.number ≡ 0 → IsProperPass p → Makes changed p job op q
        → AnswersChange changed (length p.seen) p.bounds.limit op (medium_at p.bounds p.seen)
        × (q ≡ pass_after changed p.seen (entry_of_job p job op) p) }
    ensures looked { (answer : Result LookReply ObserveFault) (p q : View) (op : Operation)
        → p.bounds.passes ≡ 1 → p.number ≡ 0 → IsProperPass p → Observes answer p op q
        → AnswersLook answer (length p.seen) op (medium_at p.bounds p.seen)
        × (q ≡ shown true (length p.seen) p.seen p) }
{}
