//! What a client answers is determined. The functions do nothing: their contracts are the laws.
//! Want of memory is no answer.

ghost use Rattle.retry_quota.specs.declared.permit.Permit.{Permit};
ghost use Rattle.laws_determined.specs.Client.Answering.{AnswersAreDetermined, with_registers};
ghost use Rattle.laws_determined.specs.Client.Driving.{DrivesAreDetermined};
ghost use Rattle.laws_determined.specs.Client.Exchanging.{ExchangesAreDetermined};
ghost use Rattle.laws_determined.specs.Client.Serving.{RunsAreDetermined};

use client_components::{ClientMeans, ClientTypes};

/// Two clients whose parts are alike give one answer to a question, over registers and an outside
/// whose answers follow from what it was, and their parts are alike afterwards. The registers keep
/// the limiters of the client's quota.
pub fn answers_are_determined<T: ClientTypes>()
    ensures { AnswersAreDetermined (λ (p : Permit). p.bucket) (λ (p : Permit). p.amount)
        ⟦<T as ClientMeans>⟧.means.quota.limiters (with_registers ⟦<T as ClientMeans>⟧.means) }
{}

/// From one beginning they serve the same run of at most some calls, be it whole or cut by the
/// fuel, and their parts are alike afterwards.
pub fn runs_are_determined<T: ClientTypes>()
    ensures { RunsAreDetermined (λ (p : Permit). p.bucket) (λ (p : Permit). p.amount)
        ⟦<T as ClientMeans>⟧.means.quota.limiters (with_registers ⟦<T as ClientMeans>⟧.means) }
{}

/// From one place of a run, where it needn't wait, they are driven on by the same entries, to where
/// the run has to wait, made all its calls or is whole, and their parts are alike afterwards.
pub fn drives_are_determined<T: ClientTypes>()
    ensures { DrivesAreDetermined (λ (p : Permit). p.bucket) (λ (p : Permit). p.amount)
        ⟦<T as ClientMeans>⟧.means.quota.limiters (with_registers ⟦<T as ClientMeans>⟧.means) }
{}

/// Where one outside and registers that are alike go into them, one outside and registers that are
/// alike come back, and their parts are alike afterwards.
pub fn exchanges_are_determined<T: ClientTypes>()
    ensures { ExchangesAreDetermined (λ (p : Permit). p.bucket) (λ (p : Permit). p.amount)
        (with_registers ⟦<T as ClientMeans>⟧.means) }
{}
