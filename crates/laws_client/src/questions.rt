//! What a question of a run is handed, and which are answered Absent or Pending.

pub mod laws;
