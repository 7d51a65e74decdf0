//! The clients of scripts are determined. The function does nothing: its contract is the law.

ghost use Rattle.laws_program.specs.Runs.Plain.{ClientsArePlain};
ghost use Rattle.client_builder.specs.Own.{OwnRuns};
ghost use Rattle.laws_determined.specs.Retries.Kinds.{RunsAlike};

use client_retries::{InterceptorMeaning, TakeOffer};
use retry_policy::ClassifyRetry;

/// What each part of a script's client answers follows from what it is and what it is handed: its
/// scripted outside, its schemes and resolvers, its serializer and deserializer, and the builder's
/// own interceptors.
pub fn scripted_clients_are_plain<C: ClassifyRetry, I: TakeOffer>()
    ensures clients { ClientsArePlain C.says ⟦<I as InterceptorMeaning>⟧.means }
    ensures own_interceptors { RunsAlike OwnRuns }
{}
