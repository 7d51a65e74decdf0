//! What a client does about retries and hooks is determined, over outsides whose answers follow
//! from what they were. The functions do nothing: their contracts are the laws. Want of memory is
//! no answer.

ghost use Rattle.retry_quota.specs.Calls.{limiters_by};
ghost use Rattle.retry_quota.specs.declared.permit.Permit.{Permit};
ghost use Rattle.laws_determined.specs.Retries.Kinds.{DecisionsAreDetermined, HooksAreDetermined};
ghost use Rattle.laws_determined.specs.Retries.Kinds.{InitialsAreDetermined};
ghost use Rattle.laws_determined.specs.Steady.Steady.{IsSteady};

use client_retries::{InterceptorMeaning, TakeOffer};
use outside::Outside;
use retry_quota::Limiter;

/// Two strategies that hold alike, over registers that are alike, begin with the same answer over
/// the same outside, and all that is left is alike.
pub fn initials_are_determined<X: Outside, L: Limiter>()
    ensures { IsSteady X.makes →
        InitialsAreDetermined X.makes (λ (p : Permit). p.bucket) (λ (p : Permit). p.amount)
        (limiters_by L.at L.after_acquire L.reply_to L.after_update) }
{}

/// So they decide.
pub fn decisions_are_determined<X: Outside, L: Limiter>()
    ensures { IsSteady X.makes →
        DecisionsAreDetermined X.makes (λ (p : Permit). p.bucket) (λ (p : Permit). p.amount)
        (limiters_by L.at L.after_acquire L.reply_to L.after_update) }
{}

/// So it is of hooks with interceptors whose answers follow from what they were.
pub fn hooks_are_determined<X: Outside, L: Limiter, I: TakeOffer>()
    ensures { IsSteady X.makes →
        HooksAreDetermined X.makes (λ (p : Permit). p.bucket) (λ (p : Permit). p.amount)
        (limiters_by L.at L.after_acquire L.reply_to L.after_update)
        ⟦<I as InterceptorMeaning>⟧.means }
{}
