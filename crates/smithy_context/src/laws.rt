//! What a key holds after a change. Each law is the contract of a function without a body.
ghost use Rattle.smithy_context.specs.Looking.{PutsOne, KeepsKeysOnce, MergesOver};
ghost use Rattle.smithy_context.specs.Looking.{MergedComesFirst, PushedComesSecond};

/// A put gives its key the entry, and leaves every other key. An unset is the put of the mark.
#[tactic(auto, using(crate::proofs::LookingLemmas::puts_one))]
pub fn a_put_changes_one_key()
    ensures { PutsOne }
{}

/// Where each key stands once, it does so after a put.
#[tactic(auto, using(crate::proofs::LookingLemmas::keeps_once))]
pub fn a_put_keeps_keys_single()
    ensures { KeepsKeysOnce }
{}

/// A merge makes each key that the layer mentions stand as it says there, a mark Unset too, and
/// leaves every other key.
#[tactic(auto, using(crate::proofs::LookingLemmas::merges_over))]
pub fn a_merge_changes_the_keys_of_its_layer()
    ensures { MergesOver }
{}

/// Settings with a merged layer say what that layer says of a key, and otherwise what they said.
#[tactic(auto, using(crate::proofs::LookingLemmas::merged_first))]
pub fn a_merged_layer_is_asked_first()
    ensures { MergedComesFirst }
{}

/// Settings with a pushed layer ask the state layer first, then that layer, then the earlier ones.
#[tactic(auto, using(crate::proofs::LookingLemmas::pushed_second))]
pub fn a_pushed_layer_is_asked_below_the_state()
    ensures { PushedComesSecond }
{}
