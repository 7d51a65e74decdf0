//! What each kind of step does to the cell. The function does nothing: its contract is the law.
ghost use Rattle.std.specs.Prelude.{◌≡◌, ◌<◌, ◌+◌, ◌-◌, ℕ, List, slice_index};
ghost use Rattle.crossbeam_utils.specs.Register.{Forks, Merges, Turns};
ghost use Rattle.retry_quota.specs.Book.{IsSound};
ghost use Rattle.retry_quota.specs.History.{Step, after};
ghost use Rattle.retry_quota_cell.specs.View.{Live, Opening, View};
ghost use Rattle.retry_quota_cell.specs.Rule.{
  book_in,
  newcomer,
  spent,
  terms_at,
  told,
  united,
  with_pool,
  words_of,
  Begins,
  Counted,
  Kept,
  Loaded,
  Made,
  PutsOut,
  TakesIn,
};
ghost use Rattle.retry_quota_cell.specs.Exchange.{exchanged, stepped};

/// Each kind of step keeps the rule, from any words and views that meet it.
pub fn each_kind_of_step_keeps_the_rule()
    ensures opened { (by : ℕ) (o : Opening)
        → IsSound o.book
        → Turns Kept by newcomer (λ _. words_of o.book 0 0) (Begins o) }
    ensures load { (by : ℕ) (v : View) → v.stage ≡ Live → Turns Kept by v (λ x. x) Loaded }
    ensures count { (by : ℕ) (v : View) → v.stage ≡ Live → Turns Kept by v (λ x. x) Counted }
    ensures step { (step : Step) (by : ℕ) (v : View) (found : List ℕ)
        → v.stage ≡ Live
        → 0 < v.parts
        → IsSound (book_in (terms_at v) found)
        → Turns Kept by v (exchanged found (stepped step v found)) (Made step) }
    ensures part_out { (by : ℕ) (v : View) (found : List ℕ)
        → v.stage ≡ Live
        → 1 < v.parts
        → Turns Kept by v (exchanged found (with_pool found (slice_index found 7 + 1))) PutsOut }
    ensures part_in { (by : ℕ) (v : View) (found : List ℕ)
        → v.stage ≡ Live
        → 0 < slice_index found 7
        → Turns Kept by v (exchanged found (with_pool found (slice_index found 7 - 1))) TakesIn }
    ensures split { (by : ℕ) (v : View) → v.stage ≡ Live → Forks Kept by v v (told v) }
    ensures hand_over { (by : ℕ) (v : View) → v.stage ≡ Live → Forks Kept by v spent v }
    ensures join { (by : ℕ) (v : View) (other : ℕ) (w : View)
        → v.stage ≡ Live
        → Merges Kept by v other w (united v w) spent }
{}
