//! The world of a client.
ghost use Rattle.std.specs.Prelude.{◌≡◌, [], Ok, IfOk};
ghost use Rattle.client_auth.specs.Identities.{loads_of};
ghost use Rattle.client_components.specs.Resting.{Exchanges};
ghost use Rattle.client_retries.specs.Strategies.{Closes};

use crate::{ClientMeans, ClientTypes, Parts};
use orchestrate::{World, with_entry, with_room};
use run_grammar::{Answer, Entry, Question};
use smithy_types::{List, OutOfMemory};
use std::alloc::Global;

/// A client's parts, with the log of what they were asked.
pub struct RuntimeComponents<T: ClientTypes> {
    /// What it answers from.
    pub parts: Parts<T>,
    /// What it was asked and answered, in order.
    pub log: List<Entry>,
}

// Written out, so that a drop is one call wherever a client's world is dropped.
impl<T: ClientTypes> Drop for RuntimeComponents<T> {
    fn drop(self) {
        let RuntimeComponents { parts: _, log: _ } = self;
    }
}

impl<T: ClientTypes> RuntimeComponents<T> {
    /// What it answers from, without the log.
    pub fn into_parts(self) -> Parts<T>
        ensures { result ≡ self.parts }
    {
        let RuntimeComponents { parts, log: _ } = self;
        parts
    }

    /// What it was asked and answered, in order.
    pub fn entries(&self) -> &List<Entry>
        ensures { result.now ≡ self.now.log }
    {
        &self.log
    }

    /// How many loads of identities were begun into the cache, those too that failed, timed out or
    /// were given up. It stops at `u64::MAX`. Without a cache 0.
    pub fn loads(&self) -> u64
        ensures { result ≡ loads_of self.now.parts.identities.cached }
    {
        self.parts.identities.loads()
    }

    /// Ends what is open, and exchanges the outside and the quota for these.
    pub fn swap_parts(&mut self, outside: &mut T::Outside, quota: &mut T::Quota)
        ensures parts { Exchanges T.Outside.makes self.old.parts outside.old quota.old
            self.new.parts outside.new quota.new }
        ensures log { self.new.log ≡ self.old.log }
    {
        self.parts.exchange(outside, quota);
    }

    /// Gives the permit back that the retry strategy holds.
    pub fn close(&mut self)
        ensures strategy { Closes ⟦<T as ClientMeans>⟧.means.quota
            self.old.parts.strategy self.old.parts.quota
            self.new.parts.strategy self.new.parts.quota }
        ensures others { self.new ≡ record self.old {
          parts = record self.old.parts
              { strategy = self.new.parts.strategy; quota = self.new.parts.quota };
        } }
    {
        self.parts.strategy.close(&mut self.parts.quota);
    }
}

impl<T: ClientTypes> World for RuntimeComponents<T> {
    ghost use Rattle.std.specs.Prelude.{refl};
    ghost use Rattle.client_components.specs.Serving.{Served};

    ghost calls = { λ w. w.log };

    ghost relates = { λ w l v. Served ⟦<T as ClientMeans>⟧.means w.parts l v.parts };

    fn ask(&mut self, alloc: Global, question: Question) -> Result<Answer, OutOfMemory> {
        let entries = with_room(alloc, &mut self.log)?;
        match copied(self.parts.answer(alloc, &question)) {
            Ok((answer, noted)) => {
                self.log = with_entry(entries, question, noted);
                Ok(answer)
            }
            Err(refused) => {
                self.log = with_entry(entries, question, Answer::NoMemory);
                Err(refused)
            }
        }
    }

    ghost relates_nothing = { λ w. refl };
}

// An answer and a copy of it.
fn copied(answer: Result<Answer, OutOfMemory>) -> Result<(Answer, Answer), OutOfMemory>
    ensures { IfOk result (λ pair. (answer ≡ Ok pair.0) × (pair.1 ≡ pair.0)) }
{
    let answer = answer?;
    let copy = answer.clone()?;
    Ok((answer, copy))
}
