//! The retry classifiers of a client.
ghost use Rattle.std.specs.Prelude.{◌≡◌, ◌++◌, map, IfOk};
ghost use Rattle.client_scripted.specs.Parts.{classifier_of};

use crate::service::ServiceError;
use json_scripts::client::ClassifierChoice;
use retry_policy::{
    Classifier, HttpStatusCodeClassifier, ModeledAsRetryableClassifier, TransientErrorClassifier,
};
use smithy_types::{List, OutOfMemory};
use std::alloc::Global;

// The classifier that was chosen.
fn classifier_of(choice: ClassifierChoice) -> Classifier<ServiceError>
    ensures { result ≡ classifier_of choice }
{
    match choice {
        ClassifierChoice::Modeled => {
            Classifier::ModeledAsRetryable(ModeledAsRetryableClassifier::new())
        }
        ClassifierChoice::Transient => Classifier::TransientError(TransientErrorClassifier::new()),
        ClassifierChoice::Status(codes) => {
            Classifier::HttpStatusCode(HttpStatusCodeClassifier::new_from_codes(codes))
        }
    }
}

/// The classifiers that were chosen, in their order.
pub(crate) fn classifiers_of(
    alloc: Global,
    choices: List<ClassifierChoice>,
) -> Result<List<Classifier<ServiceError>>, OutOfMemory>
    ensures { IfOk result (λ list. list ≡ map classifier_of choices) }
{
    let mut list = List::new();
    for choice in choices.into_vec(alloc) {
        list.push(alloc, classifier_of(choice))?;
    }
    Ok(list)
}
