//! What holds of every order, every choice and every endpoint.
ghost use Rattle.std.specs.Prelude.{◌≡◌, ℕ, List, Option};
ghost use Rattle.std.specs.List.Sorted.{IsPermutation};
ghost use Rattle.http_uri.specs.declared.uri.Uri.{Uri as Target};
ghost use Rattle.http_uri.specs.Uri.{HasParts, uri_scheme, uri_authority, uri_data};
ghost use Rattle.auth_endpoint.specs.Choice.{IsChosen, NoneChosen, reprioritized};
ghost use Rattle.auth_endpoint.specs.Endpoint.{IsApplied};
ghost use Rattle.auth_endpoint.specs.declared.explored.ExploredList.{ExploredList};
ghost use Rattle.auth_endpoint.specs.declared.explored.ExploreResult.{ExploreResult};

/// A preference leaves the options that there were, each as often.
pub fn a_preference_only_reorders()
    ensures { (preference : Option (List (List ℕ))) (options : List (List ℕ))
        → IsPermutation options (reprioritized preference options) }
{}

/// One place is chosen at most.
pub fn one_place_is_chosen()
    ensures { (lack : List ℕ → Option ExploreResult) (options : List (List ℕ)) (place other : ℕ)
        → IsChosen lack options place → IsChosen lack options other → place ≡ other }
{}

/// Where a place is chosen it isn't so that each option lacks something.
pub fn what_is_chosen_was_not_refused()
    ensures { (lack : List ℕ → Option ExploreResult) (options : List (List ℕ)) (place : ℕ)
        (explored : ExploredList)
        → IsChosen lack options place → ¬ (NoneChosen lack options explored) }
{}

/// A URI comes to one URI at an endpoint.
pub fn a_uri_is_applied_in_one_way()
    ensures { (uri endpoint : Target) (prefix : Option (List ℕ)) (one other : Target)
        → IsApplied uri endpoint prefix one → IsApplied uri endpoint prefix other
        → HasParts one (uri_scheme other) (uri_authority other) (uri_data other) }
{}
