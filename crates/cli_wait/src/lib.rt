//! The command `wait`: timers of a waiter that follow a script, the script, and the print of the
//! waiter.
#![tactic(auto)]

pub mod command;
pub mod ending;
pub mod notes;
pub mod operation;
pub mod polls;
pub mod print;
pub mod script;
pub mod scripted_timers;
pub mod states;
pub mod walk;

pub use command::WaitCommand;
pub use ending::WaitEnding;
pub use notes::{Note, Notes};
pub use operation::{ask, state_of};
pub use polls::{PollResult, PolledValue, ScriptedPoll};
pub use script::{WaitScript, is_within, read_polls, read_script};
pub use scripted_timers::ScriptedTimers;
