//! What holds of every list that a client serves. The function does nothing: its contract is the
//! law.
ghost use Rattle.client_components.specs.Paying.{FurtherAttemptsArePaid};

use crate::{ClientMeans, ClientTypes};

/// A further attempt begins only where fewer were made than the standing setting allows, and the
/// bucket in force granted what it charges for the kind of the verdict. The costs are those of the
/// quota behind the list: a bucket that is there keeps them.
pub fn further_attempts_are_paid<T: ClientTypes>()
    ensures { FurtherAttemptsArePaid ⟦<T as ClientMeans>⟧.means }
{}
