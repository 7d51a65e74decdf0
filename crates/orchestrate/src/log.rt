//! How the log of a world grows.
ghost use Rattle.std.specs.Prelude.{◌≡◌, ◌<◌, [], ◌∷◌, ◌++◌, IfOk, OnErr, OnOk, vec_len, vec_capacity};
ghost use Rattle.run_grammar.specs.Entry.{entry};

use run_grammar::{Answer, Entry, Question};
use smithy_types::{List, OutOfMemory};
use std::alloc::Global;
use std::mem;

/// Moves the entries of a log out of it, with room for one more, and leaves it empty. Where there
/// is no memory for the room the log stays as it was.
pub fn with_room(alloc: Global, log: &mut List<Entry>) -> Result<Vec<Entry>, OutOfMemory>
    ensures entries { IfOk result (λ v. v.items ≡ log.old) }
    ensures room { IfOk result (λ v. vec_len v < vec_capacity v) }
    ensures taken { OnOk result (log.new ≡ []) }
    ensures err { OnErr result (log.new ≡ log.old) }
{
    let mut entries = mem::replace(log, List::new()).into_vec(alloc);
    if entries.reserve(1).is_err() {
        *log = List::from_vec(entries);
        return Err(OutOfMemory);
    }
    Ok(entries)
}

/// A log of these entries, and of a question with its answer behind them. There is room for them,
/// so it takes no memory.
pub fn with_entry(mut entries: Vec<Entry>, question: Question, answer: Answer) -> List<Entry>
    requires { vec_len entries < vec_capacity entries }
    ensures { result ≡ entries.items ++ entry question answer ∷ [] }
{
    entries.push_reserved(Entry { question, answer });
    List::from_vec(entries)
}
