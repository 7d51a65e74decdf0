//! Auth and endpoints where no script of a client comes: choices among the schemes that an endpoint
//! lists, endpoints that set headers, requests that have a query or headers before they are signed,
//! and what boxes and plugins of auth do.

use anyhow::Result;
use auth_endpoint::{
    AuthScheme, AuthSchemeAndEndpointOrchestrationV2, EndpointError, NoAuthRuntimePlugin,
    NoAuthRuntimePluginV2, NoMatchingAuthSchemeError, Place, SharedAuthScheme,
    SharedIdentityResolver, Signed, StaticUriEndpointResolver, StaticUriEndpointResolverParams,
    apply_endpoint_to_request, choose,
};
use http_header::{HeaderMap, HeaderName, HeaderValue};
use http_schemes::{ApiKeyAuthScheme, ApiKeyLocation, BearerAuthScheme, HttpIdentityResolver};
use identity_cell::ResolveIdentity;
use smithy_context::Setting;
use smithy_types::{
    Blob, Body, Endpoint, EndpointHeader, Headers, HttpRequest, Identity, List, OutOfMemory, Text,
};
use std::alloc::Global;
use std::fmt::Debug;

/// The schemes that have a resolver, and the endpoint's list.
const CHOICES: [(&[&'static str], &[&'static str]); 3] = [
    (&["a", "b", "noAuth"], &["b"]),
    (&["a", "b", "noAuth"], &[]),
    (&["b"], &["a"]),
];

/// An endpoint's URL, a header and its values.
type At = (&'static str, &'static str, &'static [&'static str]);

/// A request's target, and the endpoints that it is sent to, one after the other.
const SENT: [(&'static str, At, At); 7] = [
    (
        "/y",
        ("http://h", "X-A", &["1", "2"]),
        ("http://g/v", "x-a", &["3"]),
    ),
    (
        "/y",
        ("http://h", "X-A", &["1", "2"]),
        ("http://g/v", "x-b", &[]),
    ),
    ("", ("/x", "x", &["1"]), ("http://h", "x", &["1"])),
    ("/y", ("", "a b", &["1"]), ("http://h", "x", &["1"])),
    ("/y", ("h:80", "a b", &["1"]), ("http://h", "x", &["1"])),
    ("/y", ("http://h", "a b", &[]), ("http://h", "x", &["1"])),
    (
        "/y",
        ("http://h", "x", &["1"]),
        ("http://g", "x", &["2", "3\n"]),
    ),
];

/// A key under a name, and the target that gets it.
struct QueryRow {
    name: &'static str,
    key: &'static str,
    target: &'static str,
}

/// Keys in queries.
const QUERIES: &[QueryRow] = &[
    QueryRow {
        name: "k",
        key: "x y",
        target: "http://h/p?a=1&k=old&b=2",
    },
    QueryRow {
        name: "k",
        key: "x y",
        target: "http://h/p?",
    },
    QueryRow {
        name: "k",
        key: "x y",
        target: "http://h?a",
    },
    QueryRow {
        name: "k",
        key: "x y",
        target: "HTTP://u:w@h:80/p/?a=1#k=2",
    },
    QueryRow {
        name: "k",
        key: "",
        target: "http://h/p?k",
    },
    QueryRow {
        name: "k",
        key: "1",
        target: "/p?kk=1&k=2&a&k&k=&b=k&k=3=4",
    },
    QueryRow {
        name: "k",
        key: "1",
        target: "/p?&a&&b==&",
    },
    QueryRow {
        name: "k",
        key: "1",
        target: "/?k",
    },
    QueryRow {
        name: "a b",
        key: "é&=+/~",
        target: "/p?a%20b=1&a+b=2&a%20b&A%20b=3",
    },
    QueryRow {
        name: "é",
        key: "v",
        target: "/p?%c3%a9=1&%C3%A9=2",
    },
    QueryRow {
        name: "",
        key: "",
        target: "/p?=1&a&&=&b",
    },
    QueryRow {
        name: "k",
        key: "1",
        target: "*",
    },
    QueryRow {
        name: "k",
        key: "1",
        target: "h:80",
    },
    QueryRow {
        name: "k",
        key: "1",
        target: "",
    },
    QueryRow {
        name: "k",
        key: "1",
        target: "http://h/a b",
    },
    QueryRow {
        name: "k",
        key: "1",
        target: "http:///p",
    },
];

/// A header by its name and its value.
type Pair = (&'static str, &'static str);

/// A token, and the headers that the request has, in order.
struct TokenRow {
    token: &'static str,
    headers: &'static [Pair],
}

/// Tokens in headers.
const TOKENS: &[TokenRow] = &[
    TokenRow {
        token: "tok",
        headers: &[("authorization", "old"), ("x", "1")],
    },
    TokenRow {
        token: "",
        headers: &[
            ("x", "1"),
            ("Authorization", "a"),
            ("y", "2"),
            ("AUTHORIZATION", "b"),
        ],
    },
    TokenRow {
        token: "a b",
        headers: &[("x", "1"), ("x", "2")],
    },
];

/// How many names a map of headers holds.
const MOST_NAMES: u32 = 24576;

/// A name that a full map has, and one that it hasn't.
const NAMES: [&str; 2] = ["N7", "x-key"];

// The place of the choice among `a`, `b` and `noAuth`.
fn choice(
    alloc: Global,
    schemes: &[&'static str],
    listed: &[&'static str],
) -> Result<Place, NoMatchingAuthSchemeError> {
    let options = texts(alloc, &["a", "b", "noAuth"])?;
    let schemes = texts(alloc, schemes)?;
    let endpoint = Endpoint {
        url: Text::from_static("http://h"),
        headers: List::new(),
        schemes: Some(texts(alloc, listed)?),
    };
    choose(alloc, &options, &schemes, &schemes, Some(&endpoint))
}

// That place, or why there is none.
fn chosen(
    alloc: Global,
    schemes: &[&'static str],
    listed: &[&'static str],
) -> Result<String, OutOfMemory> {
    match choice(alloc, schemes, listed) {
        Ok(place) => Ok(format!(in alloc; "{}", place.index)?),
        Err(error) => Ok(error.to_string(alloc)?),
    }
}

fn print_choices(rt: &HostRuntime) -> Result<()> {
    for (schemes, listed) in CHOICES {
        let said = chosen(rt.alloc(), schemes, listed)?;
        println!(rt; "schemes {schemes:?}, listed {listed:?}: {said}")?;
    }
    Ok(())
}

// An endpoint that sets one header.
fn endpoint(
    alloc: Global,
    url: &'static str,
    name: &'static str,
    values: &[&'static str],
) -> Result<Endpoint, OutOfMemory> {
    let mut headers = List::new();
    let header = EndpointHeader {
        name: Text::from_static(name),
        values: texts(alloc, values)?,
    };
    headers.push(alloc, header)?;
    Ok(Endpoint {
        url: Text::from_static(url),
        headers,
        schemes: None,
    })
}

fn get_request(uri: &'static str) -> HttpRequest {
    HttpRequest {
        method: Text::from_static("GET"),
        uri: Text::from_static(uri),
        headers: Headers::new(),
        body: Body::Bytes(Blob::new()),
    }
}

// The target, the headers and a refusal, each behind a blank.
fn listed(
    alloc: Global,
    request: &HttpRequest,
    applied: Result<(), EndpointError>,
) -> Result<Vec<u8>, OutOfMemory> {
    let mut text = Vec::new(alloc);
    text.extend_from_slice(request.uri.as_str().as_bytes())?;
    if let Some(map) = request.headers.as_map() {
        for (name, value) in map.iter() {
            text.extend_from_slice(b" ")?;
            text.extend_from_slice(name.as_str().as_bytes())?;
            text.extend_from_slice(b"=")?;
            text.extend_from_slice(value.as_bytes())?;
        }
    }
    if let Err(error) = applied {
        if error == EndpointError::OutOfMemory {
            return Err(OutOfMemory);
        }
        text.extend_from_slice(b" ")?;
        text.extend_from_slice(error.to_string(alloc)?.as_bytes())?;
    }
    Ok(text)
}

// What a request comes to at an endpoint, and then at another one.
fn sent(alloc: Global, uri: &'static str, first: At, second: At) -> Result<Vec<u8>, OutOfMemory> {
    let first = endpoint(alloc, first.0, first.1, first.2)?;
    let second = endpoint(alloc, second.0, second.1, second.2)?;
    let mut request = get_request(uri);
    let applied = match apply_endpoint_to_request(alloc, &mut request, &first, None) {
        Ok(()) => apply_endpoint_to_request(alloc, &mut request, &second, None),
        Err(error) => Err(error),
    };
    listed(alloc, &request, applied)
}

fn print_sent(rt: &HostRuntime) -> Result<()> {
    for row in &SENT {
        print_sent_row(rt, row)?;
    }
    Ok(())
}

fn print_sent_row(rt: &HostRuntime, row: &(&'static str, At, At)) -> Result<()> {
    let (uri, first, second) = *row;
    let text = String::from_utf8(sent(rt.alloc(), uri, first, second)?)?;
    println!(rt; "{uri} to {} and {}: {text}", first.0, second.0)?;
    Ok(())
}

// A request that is sent to an endpoint with a prefix.
fn print_prefixed(rt: &HostRuntime) -> Result<()> {
    let text = String::from_utf8(prefixed(rt.alloc(), "/foo?bar=1", "https://s3.amazon.com")?)?;
    println!(rt; "with a prefix: {text}")?;
    Ok(())
}

fn prefixed(alloc: Global, uri: &'static str, url: &'static str) -> Result<Vec<u8>, OutOfMemory> {
    let endpoint = endpoint(alloc, url, "x", &["1"])?;
    let mut request = get_request(uri);
    let applied = apply_endpoint_to_request(
        alloc,
        &mut request,
        &endpoint,
        Some("prefix.subdomain."),
    );
    listed(alloc, &request, applied)
}

// The endpoint of a static resolver, and the setting of its parameters.
fn print_resolved(rt: &HostRuntime) -> Result<()> {
    let endpoint = local_endpoint(rt.alloc())?;
    print_endpoint(rt, &endpoint)?;
    print_debug(
        rt,
        Setting::from(StaticUriEndpointResolverParams::default()),
    )
}

fn local_endpoint(alloc: Global) -> Result<Endpoint> {
    let local = StaticUriEndpointResolver::http_localhost(alloc, 1234)?;
    Ok(local.clone()?.resolve_endpoint()?)
}

fn print_endpoint(rt: &HostRuntime, endpoint: &Endpoint) -> Result<()> {
    let headers = endpoint.headers.len();
    let listed = endpoint.schemes.is_some();
    println!(rt;
        "{}: {headers} headers, lists schemes: {listed}",
        endpoint.url
    )?;
    Ok(())
}

// Prints a value as it is shown for debugging.
fn print_debug<T: Debug + Drop>(rt: &HostRuntime, value: T) -> Result<()> {
    println!(rt; "{value:?}")?;
    Ok(())
}

// A request to the target, with these headers in order.
fn put_request(alloc: Global, target: &str, headers: &[Pair]) -> Result<HttpRequest> {
    let mut map = HeaderMap::new(alloc);
    for header in headers {
        append(alloc, &mut map, header.0, header.1)?;
    }
    of_headers(alloc, target, map)
}

// A request to the target, with these headers.
fn of_headers(alloc: Global, target: &str, map: HeaderMap) -> Result<HttpRequest> {
    Ok(HttpRequest {
        method: Text::from_static("PUT"),
        uri: Text::from_str(alloc, target)?,
        headers: Headers::from_map(alloc, map)?,
        body: Body::Bytes(Blob::from_slice(alloc, b"content")?),
    })
}

// Adds a header behind those of its name.
fn append(alloc: Global, map: &mut HeaderMap, name: &str, value: &str) -> Result<()> {
    let name = HeaderName::from_bytes(alloc, name.as_bytes())?;
    let value = HeaderValue::from_bytes(alloc, value.as_bytes())?;
    map.append(name, value)?;
    Ok(())
}

// The identity of this content, which doesn't expire.
fn identity(alloc: Global, content: &str) -> Result<Identity> {
    Ok(Identity {
        content: Blob::from_slice(alloc, content.as_bytes())?,
        expiration: None,
    })
}

// What the scheme makes of the request, with an identity of this content.
fn signed<S: AuthScheme>(
    alloc: Global,
    scheme: &S,
    request: HttpRequest,
    content: &str,
) -> Result<Signed> {
    let endpoint = Endpoint {
        url: Text::new(),
        headers: List::new(),
        schemes: None,
    };
    let identity = identity(alloc, content)?;
    Ok(scheme.sign(alloc, request, &identity, &endpoint)?)
}

// The request that the scheme signs with an identity of this content, as one line; or why it can't
// be signed.
fn line<S: AuthScheme>(
    alloc: Global,
    scheme: &S,
    request: HttpRequest,
    content: &str,
) -> Result<String> {
    match signed(alloc, scheme, request, content)? {
        Signed::Request(request) => told(alloc, &request),
        Signed::Failed(text) => Ok(format!(in alloc; "{text}")?),
    }
}

fn told(alloc: Global, request: &HttpRequest) -> Result<String> {
    let mut text = format!(in alloc; "{} {}", request.method, request.uri)?;
    if let Some(map) = request.headers.as_map() {
        for (name, value) in map.iter() {
            tell_header(alloc, &mut text, name, value)?;
        }
    }
    Ok(text)
}

fn tell_header(
    alloc: Global,
    text: &mut String,
    name: &HeaderName,
    value: &HeaderValue,
) -> Result<()> {
    let value = value.to_str()?;
    let part = format!(in alloc; "; {name}: {value:?}")?;
    text.push_str(&part)?;
    Ok(())
}

// The scheme that puts a key under the name in the query. It ignores its prefix.
fn by_query(name: &'static str) -> ApiKeyAuthScheme {
    ApiKeyAuthScheme::new(
        ApiKeyLocation::Query,
        Text::from_static(name),
        Some(Text::from_static("prefix")),
    )
}

// The scheme that puts a key into the header of the name.
fn by_header(name: &'static str) -> ApiKeyAuthScheme {
    ApiKeyAuthScheme::new(ApiKeyLocation::Header, Text::from_static(name), None)
}

fn print_query(rt: &HostRuntime, row: &QueryRow) -> Result<()> {
    let request = put_request(rt.alloc(), row.target, &[("x", "1")])?;
    let text = line(rt.alloc(), &by_query(row.name), request, row.key)?;
    println!(rt; "{:?} {:?} {}: {text}", row.name, row.key, row.target)?;
    Ok(())
}

fn print_token(rt: &HostRuntime, row: &TokenRow) -> Result<()> {
    let request = put_request(rt.alloc(), "http://h/p?a=1", row.headers)?;
    let text = line(rt.alloc(), &BearerAuthScheme::new(), request, row.token)?;
    println!(rt; "{:?}: {text}", row.token)?;
    Ok(())
}

// A signed request as it is shown for debugging: neither its query nor its token.
fn print_shown(rt: &HostRuntime) -> Result<()> {
    let headers = [("authorization", "old"), ("x", "1")];
    let request = put_request(rt.alloc(), "http://h/p?key=k", &headers)?;
    let signed = signed(rt.alloc(), &BearerAuthScheme::new(), request, "tok")?;
    println!(rt; "{signed:?}")?;
    Ok(())
}

// A request whose map of headers is full.
fn full_request(alloc: Global) -> Result<HttpRequest> {
    let mut map = HeaderMap::new(alloc);
    for number in 0..MOST_NAMES {
        let name = format!(in alloc; "n{number}")?;
        append(alloc, &mut map, &name, "v")?;
    }
    of_headers(alloc, "/", map)
}

// How many headers a request has.
fn count(request: &HttpRequest) -> usize {
    match request.headers.as_map() {
        Some(map) => map.len(),
        None => 0,
    }
}

// How many headers a signed request has, or why there is none.
fn size(alloc: Global, signed: &Signed) -> Result<String> {
    match signed {
        Signed::Request(request) => Ok(format!(in alloc; "{} headers", count(request))?),
        Signed::Failed(text) => Ok(format!(in alloc; "{text}")?),
    }
}

// The same of a request whose map of headers is full, with a key under the name.
fn full_line(alloc: Global, name: &'static str) -> Result<String> {
    let request = full_request(alloc)?;
    let signed = signed(alloc, &by_header(name), request, "v")?;
    size(alloc, &signed)
}

fn print_full(rt: &HostRuntime, name: &'static str) -> Result<()> {
    let text = full_line(rt.alloc(), name)?;
    println!(rt; "{name}: {text}")?;
    Ok(())
}

// The scheme's id, and what it makes of a request without headers.
fn signed_by<S: AuthScheme>(alloc: Global, scheme: &S) -> Result<String> {
    let request = put_request(alloc, "/a", &[])?;
    let text = line(alloc, scheme, request, "1")?;
    Ok(format!(in alloc; "{}: {text}", scheme.id())?)
}

// What two asks answer.
fn asked_twice<R: ResolveIdentity>(alloc: Global, resolver: &mut R) -> Result<String, OutOfMemory> {
    let first = resolver.poll(alloc)?;
    let second = resolver.poll(alloc)?;
    Ok(format!(in alloc; "{first:?}, {second:?}")?)
}

// A scheme and a resolver in boxes.
fn print_boxed(rt: &HostRuntime) -> Result<()> {
    let alloc = rt.alloc();
    let scheme = SharedAuthScheme {
        boxed: Box::new(alloc, by_query("k"))?,
    };
    println!(rt; "{}", signed_by(alloc, &scheme)?)?;
    let resolver = HttpIdentityResolver::new(identity(alloc, "ab")?);
    let mut resolver = SharedIdentityResolver {
        boxed: Box::new(alloc, resolver)?,
    };
    println!(rt; "{}", asked_twice(alloc, &mut resolver)?)?;
    Ok(())
}

// What the plugins register, and when they are applied.
fn print_plugins(rt: &HostRuntime) -> Result<()> {
    print_plugin(rt, &NoAuthRuntimePlugin::default())?;
    print_newer_plugin(rt, &NoAuthRuntimePluginV2::default())?;
    print_debug(rt, Setting::from(AuthSchemeAndEndpointOrchestrationV2))
}

fn print_plugin(rt: &HostRuntime, plugin: &NoAuthRuntimePlugin) -> Result<()> {
    println!(rt; "{:?}: {}", plugin.order(), plugin.auth_scheme().id())?;
    let text = asked_twice(rt.alloc(), &mut plugin.identity_resolver())?;
    println!(rt; "{text}")?;
    Ok(())
}

fn print_newer_plugin(rt: &HostRuntime, plugin: &NoAuthRuntimePluginV2) -> Result<()> {
    println!(rt; "{:?}: {}", plugin.order(), plugin.auth_scheme().id())?;
    let options = options_of(rt.alloc(), plugin)?;
    print_options(rt, &options)
}

fn options_of(alloc: Global, plugin: &NoAuthRuntimePluginV2) -> Result<List<Text>, OutOfMemory> {
    plugin
        .auth_scheme_option_resolver(None)
        .resolve_auth_scheme_options(alloc)
}

fn print_options(rt: &HostRuntime, options: &List<Text>) -> Result<()> {
    for option in options.as_slice() {
        println!(rt; "option {option}")?;
    }
    Ok(())
}

// The list of these texts.
fn texts(alloc: Global, values: &[&'static str]) -> Result<List<Text>, OutOfMemory> {
    let mut list = List::new();
    for value in values {
        list.push(alloc, Text::from_static(*value))?;
    }
    Ok(list)
}

/// Prints choices, endpoints, plugins, boxes and signed requests.
pub fn print(rt: &HostRuntime) -> Result<()> {
    print_choices(rt)?;
    print_sent(rt)?;
    print_prefixed(rt)?;
    print_resolved(rt)?;
    print_plugins(rt)?;
    print_boxed(rt)?;
    for row in QUERIES {
        print_query(rt, row)?;
    }
    for row in TOKENS {
        print_token(rt, row)?;
    }
    print_shown(rt)?;
    for name in NAMES {
        print_full(rt, name)?;
    }
    Ok(())
}
