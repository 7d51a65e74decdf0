//! A URI at an endpoint.
ghost use Rattle.std.specs.Prelude.{◌≡◌, ◌++◌, [], IfOk, IfErr, OnOk, unwrap_or, option_copied};
ghost use Rattle.std.specs.Prelude.{codes};
ghost use Rattle.http_uri.specs.Uri.{Spells, SpellsNone, uri_authority};
ghost use Rattle.http_uri.specs.Grammar.{IsAuthority};
ghost use Rattle.auth_endpoint.specs.Endpoint.{HasCause, joined_authority, without_last_slash};
ghost use Rattle.auth_endpoint.specs.Endpoint.{without_first_slash, merged_path, query_text};
ghost use Rattle.auth_endpoint.specs.Endpoint.{whole_text, IsApplied, CantApply};

use crate::EndpointError;
use bytes::Bytes;
use http_uri::{Authority, Uri, UriError};
use smithy_types::OutOfMemory;
use std::alloc::Global;

// The path without a slash at its end.
fn without_last_slash(path: &[u8]) -> &[u8]
    ensures { result.now ≡ without_last_slash path.now }
{
    match path.strip_suffix(b"/") {
        Some(front) => front,
        None => path,
    }
}

// The path without a slash at its front.
fn without_first_slash(path: &[u8]) -> &[u8]
    ensures { result.now ≡ without_first_slash path.now }
{
    match path.strip_prefix(b"/") {
        Some(rest) => rest,
        None => path,
    }
}

// The bytes of the prefix, if there is one.
fn prefix_bytes(prefix: Option<&str>) -> &[u8]
    ensures { result.now ≡ unwrap_or (option_copied prefix.entry) [] }
{
    match prefix {
        Some(prefix) => prefix.as_bytes(),
        None => b"",
    }
}

// The bytes of the authority, if there is one.
fn authority_bytes(uri: &Uri) -> &[u8]
    ensures { result.now ≡ unwrap_or (uri_authority uri.now) [] }
{
    match uri.authority() {
        Some(authority) => authority.as_str().as_bytes(),
        None => b"",
    }
}

// The prefix and the endpoint's authority, one behind the other.
fn joined_authority(
    alloc: Global,
    prefix: Option<&str>,
    endpoint: &Uri,
) -> Result<Vec<u8>, OutOfMemory>
    ensures { IfOk result
        (λ joined. joined.items ≡ joined_authority (option_copied prefix.entry) endpoint.now) }
{
    let mut joined = Vec::new(alloc);
    joined.extend_from_slice(prefix_bytes(prefix))?;
    joined.extend_from_slice(authority_bytes(endpoint))?;
    Ok(joined)
}

fn check_authority(alloc: Global, text: &[u8]) -> Result<(), EndpointError>
    ensures ok { OnOk result (IsAuthority text.now) }
    ensures err { IfErr result (HasCause ⊥ (¬ (IsAuthority text.now)) ⊥ ⊥ ⊥) }
{
    match Authority::from_bytes(alloc, text) {
        Ok(_) => Ok(()),
        Err(UriError::Invalid(_)) => Err(EndpointError::BadAuthority),
        Err(UriError::OutOfMemory) => Err(EndpointError::OutOfMemory),
    }
}

// Adds the path behind the endpoint's.
fn push_path(text: &mut Vec<u8>, path: &[u8], front: &[u8]) -> Result<(), OutOfMemory>
    ensures { OnOk result (text.new.items ≡ text.old.items ++ merged_path path.now front.now) }
{
    if front.is_empty() {
        text.extend_from_slice(path)?;
        return Ok(());
    }
    text.extend_from_slice(without_last_slash(front))?;
    text.extend_from_slice(b"/")?;
    text.extend_from_slice(without_first_slash(path))?;
    Ok(())
}

// Adds the query, if there is one.
fn push_query(text: &mut Vec<u8>, query: Option<&str>) -> Result<(), OutOfMemory>
    ensures { OnOk result
        (text.new.items ≡ text.old.items ++ query_text (option_copied query.entry)) }
{
    if let Some(query) = query {
        text.extend_from_slice(b"?")?;
        text.extend_from_slice(query.as_bytes())?;
    }
    Ok(())
}

// The whole text, of which the URI at the endpoint is read.
fn whole_text(
    alloc: Global,
    scheme: &str,
    joined: &[u8],
    uri: &Uri,
    endpoint: &Uri,
) -> Result<Vec<u8>, OutOfMemory>
    ensures { IfOk result
        (λ text. text.items ≡ whole_text scheme.now joined.now uri.now endpoint.now) }
{
    let mut text = Vec::new(alloc);
    text.extend_from_slice(scheme.as_bytes())?;
    text.extend_from_slice(b"://")?;
    text.extend_from_slice(joined)?;
    push_path(&mut text, uri.path().as_bytes(), endpoint.path().as_bytes())?;
    push_query(&mut text, uri.query())?;
    Ok(text)
}

// These bytes, which are moved.
fn shared_bytes(text: Vec<u8>) -> Result<Bytes, OutOfMemory>
    ensures { IfOk result (λ bytes. bytes ≡ text.items) }
{
    Ok(Bytes::from_vec(text)?)
}

fn read_whole(text: Vec<u8>) -> Result<Uri, EndpointError>
    ensures ok { IfOk result (Spells text.items) }
    ensures err { IfErr result (HasCause ⊥ ⊥ ⊥ (SpellsNone text.items) ⊥) }
{
    match Uri::from_shared(shared_bytes(text)?) {
        Ok(uri) => Ok(uri),
        Err(UriError::Invalid(_)) => Err(EndpointError::BadUri),
        Err(UriError::OutOfMemory) => Err(EndpointError::OutOfMemory),
    }
}

/// The URI at the endpoint: the endpoint's scheme, the prefix and its authority joined, its path
/// and behind it the URI's path, and the URI's query. The endpoint's query is ignored.
///
/// It is refused, by the first of these that is so: the joined authority is none, the endpoint has
/// no scheme, the whole is no URI.
pub fn apply_endpoint(
    alloc: Global,
    uri: &Uri,
    endpoint: &Uri,
    prefix: Option<&str>,
) -> Result<Uri, EndpointError>
    ensures applied { IfOk result (IsApplied uri.now endpoint.now (option_copied prefix.entry)) }
    ensures refused { IfErr result (CantApply uri.now endpoint.now (option_copied prefix.entry)) }
{
    let joined = joined_authority(alloc, prefix, endpoint)?;
    check_authority(alloc, joined.as_slice())?;
    let Some(scheme) = endpoint.scheme_str() else {
        return Err(EndpointError::NoScheme);
    };
    let text = whole_text(alloc, scheme, joined.as_slice(), uri, endpoint)?;
    read_whole(text)
}
