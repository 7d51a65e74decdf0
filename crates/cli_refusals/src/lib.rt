//! Why the program refused its arguments or its input, why a text isn't a print, and what a run left
//! over of its script, in lines for standard error; and a reader that keeps what it gave, so that
//! this can be told afterwards.
#![tactic(auto)]

pub mod inputs;
pub mod keeping;
pub mod left_over;
pub mod prints;
pub mod refusals;
pub mod schema_command;
pub mod word_list;

pub use inputs::kept_of;
pub use keeping::{KeepingReader, Kept};
pub use left_over::{left_over_line, missed_line};
pub use refusals::{Call, refusal_line};
pub use schema_command::{print_schema, schema_kind};
