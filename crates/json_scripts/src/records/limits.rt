//! Limits of what a script says of the outside.
ghost use Rattle.std.specs.Prelude.{◌≡◌};
ghost use Rattle.std.specs.List.{list_all};
ghost use Rattle.json_scripts.specs.Records.Limits.{identity_answer_fits, source_fits, sources_fit};
ghost use Rattle.json_scripts.specs.Records.Limits.{record_fits, records_fit};

use crate::{head_fits, text_fits};
use outside_scripted::{IdentityAnswer, IdentityRecord, RecordAnswer, ResponseRecord};

#[tactic(auto, unfolding(crate::specs::Records::Limits::source_fits))]
fn source_fits(source: &IdentityRecord) -> bool
    ensures { result ≡ source_fits source.now }
{
    text_fits(&source.id) && identity_answer_fits(&source.answer)
}

fn identity_answer_fits(answer: &IdentityAnswer) -> bool
    ensures { result ≡ identity_answer_fits answer.now }
{
    match answer {
        IdentityAnswer::Identity(_) => true,
        IdentityAnswer::Failed(text) => text_fits(text),
    }
}

/// Whether the texts of each source are within their limit: its id, and the text of a load that
/// fails.
pub fn sources_fit(sources: &[IdentityRecord]) -> bool
    ensures { result ≡ sources_fit sources.now }
{
    sources.iter().all(|source| source_fits(source))
}

// Frames are bounded by the script alone.
#[tactic(auto, unfolding(crate::specs::Records::Limits::record_fits))]
fn record_fits(given: &ResponseRecord) -> bool
    ensures { result ≡ record_fits given.now }
{
    match &given.answer {
        RecordAnswer::Failed(_, text) => text_fits(text),
        RecordAnswer::Response(response) => head_fits(&response.headers),
    }
}

/// Whether what comes of each request is within its limit: the text of a failure, or the head of a
/// response.
pub fn records_fit(records: &[ResponseRecord]) -> bool
    ensures { result ≡ records_fit records.now }
{
    records.iter().all(|given| record_fits(given))
}
