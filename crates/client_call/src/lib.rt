//! What a client does with its sleeps and with its call at the connector, one small function for
//! each kind of question. Each says which calls of the outside stand behind its answer.
#![tactic(auto)]

pub mod body;
pub mod call;
pub mod ending;
pub mod gathered;
pub mod guards;
pub mod laws;
pub mod load;
pub mod park;
pub mod protection;
pub mod reading;
pub mod sleeping;
pub mod transmit;
pub mod upload;
pub mod whole_body;

pub use call::Call;
pub use gathered::Gathered;
pub use guards::Guards;
pub use reading::{Reading, Stop};
pub use sleeping::Sleeps;
pub use upload::Upload;
pub use whole_body::WholeBody;
