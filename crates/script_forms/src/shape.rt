//! What a form is made of.

use crate::form::Form;

/// The commands that read a script.
#[derive(Clone, Copy)]
pub enum ScriptKind {
    /// The answers of one run.
    Replay,
    /// Clients and their calls.
    Client,
    /// Callers in threads.
    Fleet,
    /// One waiter.
    Wait,
    /// Many waiters.
    Waiters,
}

impl ScriptKind {
    /// The command that reads such scripts.
    pub fn command(self) -> &'static str {
        match self {
            ScriptKind::Replay => "replay",
            ScriptKind::Client => "client",
            ScriptKind::Fleet => "fleet",
            ScriptKind::Wait => "wait",
            ScriptKind::Waiters => "waiters",
        }
    }

    /// The form of the whole script.
    pub fn form(self) -> Form {
        match self {
            ScriptKind::Replay => Form::ReplayScript,
            ScriptKind::Client => Form::ClientScript,
            ScriptKind::Fleet => Form::FleetScript,
            ScriptKind::Wait => Form::WaitScript,
            ScriptKind::Waiters => Form::WaitersScript,
        }
    }
}

/// What a text is to be.
#[derive(Clone, Copy)]
pub enum TextKind {
    /// The script of a command.
    Script(ScriptKind),
    /// What a host begins with, its first line.
    Description,
    /// A further line of a host.
    Message,
}

impl TextKind {
    /// The form of the whole text.
    pub fn form(self) -> Form {
        match self {
            TextKind::Script(kind) => kind.form(),
            TextKind::Description => Form::Description,
            TextKind::Message => Form::Message,
        }
    }

    /// What kind of JSON it is.
    pub fn json_kind(self) -> &'static str {
        match self {
            TextKind::Message => "a JSON array",
            _ => "a JSON object",
        }
    }

    /// The whole text, as it stands in the place of a path.
    pub fn whole(self) -> &'static str {
        match self {
            TextKind::Script(_) => "the script",
            TextKind::Description => "the description",
            TextKind::Message => "the line",
        }
    }
}

/// A member of an object.
#[derive(Clone, Copy)]
pub struct Member {
    /// Its name.
    pub name: &'static str,
    /// What stands there.
    pub form: Form,
    /// Whether it must stand there.
    pub is_needed: bool,
}

/// What chooses the form of a pair's second item.
#[derive(Clone, Copy, PartialEq, Eq)]
pub enum Keys {
    /// The key of a setting. Its value may be null too.
    Settings,
    /// The kind of a question.
    Questions,
}

/// What kind of text is wanted.
#[derive(Clone, Copy, PartialEq, Eq)]
pub enum Texts {
    /// Any text.
    Any,
    /// The name of a header.
    HeaderName,
}

/// What kind of bytes is wanted.
#[derive(Clone, Copy, PartialEq, Eq)]
pub enum Bytes {
    /// Any bytes.
    Any,
    /// The value of a header.
    HeaderValue,
}

/// What a form is made of.
#[derive(Clone, Copy)]
pub enum Shape {
    /// The value null.
    Null,
    /// True or false.
    Truth,
    /// The value true.
    True,
    /// A whole number from the first to the second.
    Number(u64, u64),
    /// The place of one of the script's buckets.
    BucketPlace,
    /// The place of one of the script's clients.
    ClientPlace,
    /// A text.
    Text(Texts),
    /// Bytes: a text, or an object with them in hex.
    Blob(Bytes),
    /// One of these words.
    Word(&'static [&'static str]),
    /// An array whose items have one form, at least so many.
    List(Form, usize),
    /// An array with these items.
    Row(&'static [Form]),
    /// An array of this word and these items.
    Tagged(&'static str, &'static [Form]),
    /// An array of two, whose second item goes by the first.
    Keyed(Keys),
    /// An object with these members.
    Object(&'static [Member]),
    /// One of these forms, none of which is a choice itself.
    Choice(&'static [Form]),
    /// The first row or the second, by the number of items.
    ByLength(Form, Form),
}

/// A form: its name in a schema, what a message says is wanted, and what it is made of.
#[derive(Clone, Copy)]
pub struct Table {
    /// The name, in words with underscores.
    pub name: &'static str,
    /// What is wanted, as it stands behind "expected".
    pub wanted: &'static str,
    /// What it is made of.
    pub shape: Shape,
}
