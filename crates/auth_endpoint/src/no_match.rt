//! The text that says why no auth option was chosen.
ghost use Rattle.std.specs.Prelude.{◌≡◌, flat_map, Some};
ghost use Rattle.std.specs.List.{list_all, list_any};
ghost use Rattle.std.specs.Fmt.{WritesOnOk};
ghost use Rattle.auth_endpoint.specs.Texts.{lacks_scheme, lacks_resolver, is_bug, is_no_auth};
ghost use Rattle.auth_endpoint.specs.Texts.{reason_text, option_text, advice_text, opt_out_text};
ghost use Rattle.auth_endpoint.specs.Texts.{truncated_text, opening_text, no_options_text};
ghost use Rattle.auth_endpoint.specs.Texts.{no_schemes_text, parts_text, explored_text};
ghost use Rattle.auth_endpoint.specs.Texts.{no_match_text};

use crate::{
    ExploreResult, ExploredAuthOption, ExploredList, NO_AUTH_SCHEME_ID, NoMatchingAuthSchemeError,
};
use std::error::Error;
use std::fmt;

fn lacks_scheme(option: &ExploredAuthOption) -> bool
    ensures { result ≡ lacks_scheme option.now }
{
    matches!(option.result, ExploreResult::NoAuthScheme)
}

fn lacks_resolver(option: &ExploredAuthOption) -> bool
    ensures { result ≡ lacks_resolver option.now }
{
    matches!(option.result, ExploreResult::NoIdentityResolver)
}

// Whether the option lacks what no caller can set.
fn is_bug(option: &ExploredAuthOption) -> bool
    ensures { result ≡ is_bug option.now }
{
    !lacks_resolver(option)
}

fn all_lack_scheme(options: &[ExploredAuthOption]) -> bool
    ensures { result ≡ list_all lacks_scheme options.now }
{
    options.iter().all(|option| lacks_scheme(option))
}

fn any_is_bug(options: &[ExploredAuthOption]) -> bool
    ensures { result ≡ list_any is_bug options.now }
{
    options.iter().any(|option| is_bug(option))
}

fn any_lacks_resolver(options: &[ExploredAuthOption]) -> bool
    ensures { result ≡ list_any lacks_resolver options.now }
{
    options.iter().any(|option| lacks_resolver(option))
}

fn any_is_no_auth(options: &[ExploredAuthOption]) -> bool
    ensures { result ≡ list_any is_no_auth options.now }
{
    options
        .iter()
        .any(|option| option.scheme_id.as_str() == NO_AUTH_SCHEME_ID)
}

// Why an option wasn't chosen.
#[tactic(auto, unfolding(crate::specs::Texts::reason_text))]
fn reason(lack: ExploreResult) -> &'static str
    ensures { result.now ≡ reason_text lack }
{
    match lack {
        ExploreResult::NoAuthScheme => "no auth scheme was registered for it.",
        ExploreResult::NoIdentityResolver => "there was no identity resolver for it.",
        ExploreResult::MissingEndpointConfig => {
            "there is auth config in the endpoint config, but this scheme wasn't listed in it \
            (see https://github.com/smithy-lang/smithy-rs/discussions/3281 for more details)."
        }
    }
}

// What to do about it.
#[tactic(auto, unfolding(crate::specs::Texts::advice_text))]
fn advice(options: &[ExploredAuthOption]) -> &'static str
    ensures { result.now ≡ advice_text options.now }
{
    if any_lacks_resolver(options) {
        " Be sure to set an identity, such as credentials, auth token, or other identity type \
        that is required for this service."
    } else if any_is_bug(options) {
        " This is likely a bug."
    } else {
        ""
    }
}

// How to go without.
#[tactic(auto, unfolding(crate::specs::Texts::opt_out_text))]
fn opt_out(options: &[ExploredAuthOption]) -> &'static str
    ensures { result.now ≡ opt_out_text options.now }
{
    if !any_is_bug(options) && !any_is_no_auth(options) {
        " If you intended to make an unauthenticated request, consider using `@optionalAuth` or \
        `@auth([])` on the operation in the service model and regenerating the client SDK. If \
        modifying the model is not possible, you can disable authentication at runtime as \
        described in https://github.com/smithy-lang/smithy-rs/discussions/4197."
    } else {
        ""
    }
}

// That more were refused.
#[tactic(auto, unfolding(crate::specs::Texts::truncated_text))]
fn truncation(truncated: bool) -> &'static str
    ensures { result.now ≡ truncated_text truncated }
{
    if truncated {
        " Note: there were other auth schemes that were evaluated that weren't listed here."
    } else {
        ""
    }
}

#[tactic(auto, unfolding(crate::specs::Texts::option_text))]
fn write_option<W: fmt::Write>(
    option: &ExploredAuthOption,
    f: &mut fmt::Formatter<W>,
) -> fmt::Result
    ensures { WritesOnOk W.write_str_gives f.old result (option_text option.now) f.new }
{
    let reason = reason(option.result);
    let scheme_id = option.scheme_id.as_str();
    write!(f, " \"{scheme_id}\" wasn't a valid option because {reason}")
}

fn write_options<W: fmt::Write>(
    options: &[ExploredAuthOption],
    f: &mut fmt::Formatter<W>,
) -> fmt::Result
    ensures { WritesOnOk W.write_str_gives f.old result (flat_map option_text options.now) f.new }
{
    for option in options {
        write_option(option, f)?;
    }
    Ok(())
}

// How the text begins where some option has a scheme.
#[tactic(auto, unfolding(crate::specs::Texts::opening_text))]
fn opening() -> &'static str
    ensures { result.now ≡ opening_text }
{
    "failed to select an auth scheme to sign the request with."
}

// The text where there was no option.
#[tactic(auto, unfolding(crate::specs::Texts::no_options_text))]
fn no_options() -> &'static str
    ensures { result.now ≡ no_options_text }
{
    "no auth options are available. This can happen if there's a problem with the service model, \
    or if there is a codegen bug."
}

// The text where no option has a scheme.
#[tactic(auto, unfolding(crate::specs::Texts::no_schemes_text))]
fn no_schemes() -> &'static str
    ensures { result.now ≡ no_schemes_text }
{
    "no auth schemes are registered. This can happen if there's a problem with the service model, \
    or if there is a codegen bug."
}

// The parts of the text where some option has a scheme.
#[tactic(auto, unfolding(crate::specs::Texts::parts_text))]
fn write_parts<W: fmt::Write>(explored: &ExploredList, f: &mut fmt::Formatter<W>) -> fmt::Result
    ensures { WritesOnOk W.write_str_gives f.old result (parts_text explored.now) f.new }
{
    let options = explored.items.as_slice();
    f.write_str(opening())?;
    write_options(options, f)?;
    f.write_str(advice(options))?;
    f.write_str(opt_out(options))?;
    f.write_str(truncation(explored.truncated))
}

fn write_explored<W: fmt::Write>(explored: &ExploredList, f: &mut fmt::Formatter<W>) -> fmt::Result
    ensures { WritesOnOk W.write_str_gives f.old result (explored_text explored.now) f.new }
{
    if explored.items.is_empty() {
        f.write_str(no_options())
    } else if all_lack_scheme(explored.items.as_slice()) {
        f.write_str(no_schemes())
    } else {
        write_parts(explored, f)
    }
}

impl fmt::Display for NoMatchingAuthSchemeError {
    ghost output = { λ e. Some (no_match_text e) };

    fn fmt<W: fmt::Write>(&self, f: &mut fmt::Formatter<W>) -> fmt::Result {
        match self {
            NoMatchingAuthSchemeError::Explored(explored) => write_explored(explored, f),
            NoMatchingAuthSchemeError::OutOfMemory => f.write_str("out of memory"),
        }
    }
}

impl Error for NoMatchingAuthSchemeError {}
