//! The responses that are still to come.
ghost use Rattle.std.specs.Prelude.{◌≡◌, drop, slice_get};

use crate::records::ResponseRecord;
use smithy_types::List;
use std::alloc::Global;
use std::collections::VecDeque;
use std::marker::Model;

/// The records that are still to come, the next one first.
#[derive(Drop)]
pub struct Records {
    queue: VecDeque<ResponseRecord>,
}

impl Model for Records {
    ghost use Rattle.std.specs.Prelude.{List};
    ghost use Rattle.outside_scripted.specs.declared.records.ResponseRecord.{ResponseRecord};

    ghost Value = { List ResponseRecord };

    ghost view = { λ r. r.queue.items };
}

impl Records {
    /// These records, which are moved.
    pub fn new(alloc: Global, records: List<ResponseRecord>) -> Records
        ensures { result ≡ records }
    {
        Records {
            queue: VecDeque::from_vec(records.into_vec(alloc)),
        }
    }

    /// Takes the next record.
    pub fn take(&mut self) -> Option<ResponseRecord>
        ensures next { result ≡ slice_get self.old 0 }
        ensures rest { self.new ≡ drop 1 self.old }
    {
        self.queue.pop_front()
    }
}
