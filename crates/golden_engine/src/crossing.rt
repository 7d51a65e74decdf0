//! What a thread hands back to the one that joins it.
use run_grammar::{Answer, Entry, Question};
use smithy_context::Settings;
use smithy_types::HttpResponse;

/// Takes what can be handed from one thread to another.
pub fn handed_over<T: Send + Drop>(_value: T) {}

/// A log's entries, and what a caller's thread keeps beside them, can cross threads.
pub fn logs_cross_threads(
    question: Question,
    answer: Answer,
    entry: Entry,
    response: HttpResponse,
    settings: Settings,
) {
    handed_over(question);
    handed_over(answer);
    handed_over(entry);
    handed_over(response);
    handed_over(settings);
}
