//! What holds of every cell, whatever calls were made.

ghost use Rattle.std.specs.Prelude.{◌≡◌, ℕ, ◌+◌, ◌<◌, ◌≤◌, min, Bool, Some};
ghost use Rattle.std.specs.Prelude.{List, [], ◌∷◌, ◌++◌, length};
ghost use Rattle.identity_cell.specs.History.{IsLegal, replay, begun_in, begins, Empty, Loading};
ghost use Rattle.identity_cell.specs.LazyCache.{Cache, cell_at, loads, put, with_cell};
ghost use Rattle.identity_cell.specs.LazyCache.{looked_at, AnswersLook, begun_by};
ghost use Rattle.identity_cell.specs.Cell.{Cell, empty_cell, IsReplayed, after_end};
ghost use Rattle.identity_cell.specs.Runs.{open_loads, Call, Began, Asked, Makes, Run};
ghost use Rattle.identity_cell.specs.Runs.{answered, WasStored};
ghost use Rattle.identity_cell.specs.Waiting.{EndedIn};
ghost use Rattle.identity_cell.specs.declared.cell.Begin.{Begin};
ghost use Rattle.identity_cell.specs.declared.cell.CellState.{CellState};
ghost use Rattle.identity_cell.specs.declared.cell.CellState.TheVariants as state;
ghost use Rattle.identity_cell.specs.declared.looked.Looked.{Looked};
ghost use Rattle.smithy_types.specs.declared.identity.Identity.{Identity};
ghost use Rattle.identity_cell.specs.declared.cell.Cleared.{Cleared};
ghost use Rattle.identity_cell.specs.declared.event.Event.{Event};
ghost use Rattle.identity_cell.specs.declared.event.Event.TheVariants.{Dropped};
ghost use Rattle.identity_cell.specs.declared.event.Event.TheVariants as event;

/// In a legal history at most one load is open at any place.
pub fn one_open_load()
    ensures { (buffer : ℕ) (before later : List Event) →
        IsLegal buffer (before ++ later) → length (open_loads before) ≤ 1 }
{}

/// Where the open load was dropped, nothing is in the cell.
pub fn dropped_is_empty()
    ensures { (buffer : ℕ) (before : List Event) (ticket : ℕ) →
        IsLegal buffer (before ++ Dropped ticket ∷ []) →
        replay buffer (before ++ Dropped ticket ∷ []) ≡ Some Empty }
{}

/// Whatever calls were made of a new cell, its history is legal and leads to its state.
pub fn runs_are_legal<T: Clone>()
    ensures { (buffer : ℕ) (calls : List (Call T)) (cell : Cell T) →
        Run T.is_clone (empty_cell buffer) calls cell → IsReplayed cell }
{}

/// Whatever calls were made of a new cell, a value that the next one answers is a copy of the one
/// with which `done` ended the open load, for the ticket at which the cell stands.
pub fn answered_value_was_stored<T: Clone>()
    ensures { (buffer : ℕ) (calls : List (Call T)) (next : Call T) (cell after : Cell T) →
        (copy : T) → Run T.is_clone (empty_cell buffer) calls cell →
        Makes T.is_clone cell next after → answered next ≡ Some copy →
        WasStored T.is_clone (empty_cell buffer) calls cell copy }
{}

/// Where a caller was told to wait for a load, the next load begins only after that one failed or
/// was dropped, or after its value was removed.
pub fn a_load_that_was_met_ends_before_the_next()
    ensures { (buffer : ℕ) (before between : List Event) (ticket next : ℕ) →
        replay buffer before ≡ Some (Loading ticket) →
        IsLegal buffer (before ++ event.Wait ∷ between ++ event.Begin next ∷ []) →
        EndedIn buffer ticket between }
{}

/// A caller that finds a value which hasn't expired, and then asks to load, begins no load.
pub fn an_unexpired_value_begins_no_load<T: Clone>()
    ensures { (old mid new : Cell T) (ticket expiry now : ℕ) (value : T) (waited : Bool) →
        (cleared : Cleared T) (answer : Begin T) →
        old.state ≡ state.Full ticket value expiry → now + old.buffer < expiry →
        Makes T.is_clone old (Asked now waited cleared) mid →
        Makes T.is_clone mid (Began answer) new →
        begun_in new.events ≡ begun_in old.events }
{}

/// A look into a cache counts the load that it begins, once, and nothing else; a cell that goes
/// leaves its count.
pub fn a_look_counts_the_load_that_it_begins()
    ensures { (cache : Cache) (id : List ℕ) (now : ℕ) (answer : Looked) →
        AnswersLook (cell_at cache id) now answer →
        loads (put cache id (looked_at (cell_at cache id) now))
        ≡ min (loads cache + begun_by answer) 18446744073709551615 }
{}

/// The end of a load in a cache counts none.
pub fn the_end_of_a_load_counts_none()
    ensures { (cache : Cache) (id : List ℕ) (ticket : ℕ) →
        (state : CellState Identity) (end : Event) →
        begins end ≡ 0 →
        loads (with_cell cache id (after_end (cell_at cache id) ticket state end)) ≡ loads cache }
{}
