//! What holds of the questions of all runs. Each law is the contract of a function without a body.
ghost use Rattle.laws_client.specs.Questions.Answering.{AbsencesHaveCauses};
ghost use Rattle.laws_client.specs.Questions.Calling.{CallsStaySound};
ghost use Rattle.laws_client.specs.Questions.Handing.{PartsAreHanded};
ghost use Rattle.laws_client.specs.Questions.Loading.{
  BeginsAlone,
  ExchangedAlone,
  LoadsStayAlone,
  PendingChoicesAsked,
};
ghost use Rattle.laws_client.specs.Questions.OwnLoads.{ChoicesGoOnWithOwn};
ghost use Rattle.laws_client.specs.Questions.Sleeping.{WaitsAreOverAsTold};

use client_components::{ClientMeans, ClientTypes};

/// In a list that begins a run each question is handed what its kind works on: a Serialize its
/// input; a Load and a Transmit a request; an Apply a request and an endpoint; a Sign a request,
/// a scheme's id, an identity and an endpoint; a Stream, a Body and a Deserialize a response.
pub fn parts_are_handed()
    ensures { PartsAreHanded }
{}

/// Where a client's parts answered a list that begins a run, the answer Absent comes of Start
/// exactly where the client has no sleeps, of Initial and Decide exactly where the standard retry
/// strategy lacks a setting, and of no other kind.
pub fn absences_have_causes<T: ClientTypes>()
    ensures { AbsencesHaveCauses ⟦<T as ClientMeans>⟧.means }
{}

/// Of a client's cache no cell is loading but that of the load that is open: at its start, behind
/// whatever it answers, and where its outside and quota are exchanged.
pub fn loads_are_alone<T: ClientTypes>()
    ensures begun { BeginsAlone T.Resolver }
    ensures served { LoadsStayAlone ⟦<T as ClientMeans>⟧.means }
    ensures exchanged { ExchangedAlone ⟦<T as ClientMeans>⟧.means }
{}

/// Where it is so, each choice that is answered Pending asked the source of the scheme that it
/// picked, and the source answered Pending: the outside's `resolve`, or the resolver that is
/// registered.
pub fn pending_choices_asked<T: ClientTypes>()
    ensures { PendingChoicesAsked ⟦<T as ClientMeans>⟧.means }
{}

/// In a list that begins a run, where a client's parts answered it, a load that is open before a
/// choice is of the scheme that the choice picks; behind the choice one is open only where it is
/// pending. Where a choice's note is Load, its scheme's cell has its identity, where the cache
/// keeps any cell.
pub fn choices_go_on_with_their_own_load<T: ClientTypes>()
    ensures { ChoicesGoOnWithOwn ⟦<T as ClientMeans>⟧.means }
{}

/// The call that is open at a client's connector is sound (an upload that is watched was read
/// before it was sent, the guard of an open body has counted its bytes) at the client's start, once
/// outside and quota are exchanged, and behind whatever is served. So of each entry that is served:
/// a Transmit failed only as the connector did in this ask; a Body is Read with the bytes of all
/// asks, and Pending only where there was no frame or behind 64 frames.
pub fn calls_stay_sound<T: ClientTypes>()
    ensures { CallsStaySound ⟦<T as ClientMeans>⟧.means }
{}

/// Over an outside with sleeps: where a Start was answered Started and the role's sleep was left
/// alone since, a Wait for it is Ready only where the outside said, of that sleep, that it is over.
pub fn waits_are_over_as_told<T: ClientTypes>()
    ensures { WaitsAreOverAsTold ⟦<T as ClientMeans>⟧.means }
{}
