//! Requests and responses, as the engine hands them on.
ghost use Rattle.std.specs.Prelude.{◌≡◌, [], ◌==◌, length, IfOk, IfSome, IsSome, ◌↔◌, ◌≢◌};

use crate::redacted::REDACTED;
use crate::{Blob, OutOfMemory, Text};
use http_header::{HeaderMap, HeaderName, HeaderValue};
use std::alloc::{AllocError, Global};
use std::fmt;
use std::marker::Model;
use std::sync::Arc;

/// A header list that is shared and never changes: a copy costs the same however long it is. Its
/// `Debug` doesn't show the values that are marked as sensitive.
#[derive(Drop)]
pub struct Headers {
    map: Option<Arc<HeaderMap>>,
}

impl Model for Headers {
    ghost use Rattle.smithy_types.specs.HeaderList.{HeaderList, headers_of};
    ghost use Rattle.std.specs.Coded.{coded_list, coded×, coded_ℕ};
    ghost use Rattle.http_header.specs.FieldValue.{field_value_code};

    ghost Value = { HeaderList };

    ghost coded = { coded_list (coded× (coded_list coded_ℕ) (coded_list field_value_code)) };

    ghost view = { λ h. headers_of h.map };
}

impl Headers {
    /// The list without headers. It takes no memory.
    pub fn new() -> Headers
        ensures { result ≡ [] }
    {
        Headers { map: None }
    }

    /// The headers of this map, which is moved and not copied.
    pub fn from_map(alloc: Global, map: HeaderMap) -> Result<Headers, OutOfMemory>
        ensures { IfOk result (λ h. h ≡ map) }
    {
        Ok(Headers {
            map: Some(Arc::new(alloc, map)?),
        })
    }

    /// The map of the headers. A list that was made without a map has none, and no header either.
    pub fn as_map(&self) -> Option<&HeaderMap>
        ensures value { IfSome result (λ m. m.now ≡ self.now) }
        ensures found { self.now ≢ [] → IsSome result }
    {
        match &self.map {
            Some(map) => Some(Arc::as_ref(map)),
            None => None,
        }
    }
}

impl Clone for Headers {
    ghost is_clone = { λ headers copy. copy ≡ headers };

    fn clone(&self) -> Result<Headers, AllocError> {
        match &self.map {
            Some(map) => Ok(Headers {
                map: Some(map.clone()?),
            }),
            None => Ok(Headers { map: None }),
        }
    }
}

impl fmt::Debug for Headers {
    fn fmt<W: fmt::Write>(&self, f: &mut fmt::Formatter<W>) -> fmt::Result {
        f.write_str("{")?;
        if let Some(map) = self.as_map() {
            show_headers(map, f)?;
        }
        f.write_str("}")
    }
}

fn show_headers<W: fmt::Write>(map: &HeaderMap, f: &mut fmt::Formatter<W>) -> fmt::Result {
    let mut is_later = false;
    for (name, value) in map.iter() {
        if is_later {
            f.write_str(", ")?;
        }
        is_later = true;
        show_header(name, value, f)?;
    }
    Ok(())
}

fn show_header<W: fmt::Write>(
    name: &HeaderName,
    value: &HeaderValue,
    f: &mut fmt::Formatter<W>,
) -> fmt::Result {
    if value.is_sensitive() {
        return write!(f, "{name:?}: {REDACTED}");
    }
    write!(f, "{name:?}: {value:?}")
}

/// The body of a request or a response.
#[derive(Debug, Drop)]
pub enum Body {
    /// Bytes in memory, which can be copied, and so sent again.
    Bytes(Blob),
    /// Bytes that can be sent once. They can't be copied for a further attempt.
    Once(Blob),
    /// The bytes are gone.
    Taken,
}

impl Clone for Body {
    ghost is_clone = { λ body copy. copy ≡ body };

    fn clone(&self) -> Result<Body, AllocError> {
        match self {
            Body::Bytes(bytes) => Ok(Body::Bytes(bytes.clone()?)),
            Body::Once(bytes) => Ok(Body::Once(bytes.clone()?)),
            Body::Taken => Ok(Body::Taken),
        }
    }
}

/// A request of HTTP. Its `Debug` shows neither the query, which may hold a key, nor the values of
/// headers that are marked as sensitive.
#[derive(Drop)]
pub struct HttpRequest {
    /// The method, such as `GET`.
    pub method: Text,
    /// Where the request goes.
    pub uri: Text,
    /// Its headers.
    pub headers: Headers,
    /// Its body.
    pub body: Body,
}

impl Clone for HttpRequest {
    ghost is_clone = { λ request copy. copy ≡ request };

    fn clone(&self) -> Result<HttpRequest, AllocError> {
        Ok(HttpRequest {
            method: self.method.clone()?,
            uri: self.uri.clone()?,
            headers: self.headers.clone()?,
            body: self.body.clone()?,
        })
    }
}

impl fmt::Debug for HttpRequest {
    fn fmt<W: fmt::Write>(&self, f: &mut fmt::Formatter<W>) -> fmt::Result {
        write!(f, "HttpRequest {{ method: {:?}, uri: ", self.method)?;
        match self.uri.as_str().split_once('?') {
            Some((target, _)) => write!(f, "\"{target}?{REDACTED}\"")?,
            None => write!(f, "{:?}", self.uri)?,
        }
        write!(f, ", headers: {:?}, body: {:?} }}", self.headers, self.body)
    }
}

/// A response of HTTP.
#[derive(Debug, Drop)]
pub struct HttpResponse {
    /// The status, such as 200.
    pub status: u16,
    /// Its headers.
    pub headers: Headers,
    /// Its body, which is Taken until it was read.
    pub body: Body,
}

impl Clone for HttpResponse {
    ghost is_clone = { λ response copy. copy ≡ response };

    fn clone(&self) -> Result<HttpResponse, AllocError> {
        Ok(HttpResponse {
            status: self.status,
            headers: self.headers.clone()?,
            body: self.body.clone()?,
        })
    }
}
