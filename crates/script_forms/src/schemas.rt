//! The JSON Schema of a command's scripts.

use crate::form::Form;
use crate::items::form_of_key;
use crate::leaves::keys_of;
use crate::names::listed;
use crate::shape::{Bytes, Keys, Member, ScriptKind, Shape, Texts};
use crate::tables::table;
use smithy_types::OutOfMemory;
use std::alloc::Global;

/// The most forms that a script has.
const FORM_LIMIT: usize = 256;

/// A schema that is being written.
#[derive(Drop)]
struct Schema {
    alloc: Global,
    text: String,
    // The forms that the text names, each once.
    named: Vec<Form>,
}

/// The schema of a command's scripts (JSON Schema, draft 2020-12), with a line for each form.
/// Limits, and what is asked of several values together, don't stand in it.
pub fn write_schema(alloc: Global, kind: ScriptKind) -> Result<Vec<u8>, OutOfMemory> {
    let mut schema = Schema {
        alloc,
        text: String::new(alloc),
        named: Vec::new(alloc),
    };
    schema.push(&[
        "{\"$schema\":\"https://json-schema.org/draft/2020-12/schema\",\n\"title\":\"A script of smithy_replay ",
        kind.command(),
        "\",\n",
    ])?;
    schema.refer(kind.form())?;
    schema.push(&[",\n\"$defs\":{"])?;
    schema.define_all()?;
    schema.push(&["\n}}\n"])?;
    Ok(schema.text.into_bytes())
}

impl Schema {
    fn push(&mut self, parts: &[&str]) -> Result<(), OutOfMemory> {
        for part in parts {
            self.text.push_str(*part)?;
        }
        Ok(())
    }

    // Defines each form that is named, also those that a definition names first.
    fn define_all(&mut self) -> Result<(), OutOfMemory> {
        for place in 0..FORM_LIMIT {
            let form = match self.named.get(place) {
                Some(form) => *form,
                None => return Ok(()),
            };
            let front = if place == 0 { "\n" } else { ",\n" };
            self.push(&[front, "\"", table(form).name, "\":{"])?;
            self.define(form)?;
            self.push(&["}"])?;
        }
        Ok(())
    }

    // `"$ref":"#/$defs/name"`, without braces.
    fn refer(&mut self, form: Form) -> Result<(), OutOfMemory> {
        if !self.is_named(form) {
            self.named.push(form)?;
        }
        self.push(&["\"$ref\":\"#/$defs/", table(form).name, "\""])
    }

    fn is_named(&self, form: Form) -> bool {
        for other in &self.named {
            if *other as usize == form as usize {
                return true;
            }
        }
        false
    }

    // What a form is, without braces.
    fn define(&mut self, form: Form) -> Result<(), OutOfMemory> {
        match table(form).shape {
            Shape::Null => self.push(&["\"type\":\"null\""]),
            Shape::Truth => self.push(&["\"type\":\"boolean\""]),
            Shape::True => self.push(&["\"const\":true"]),
            Shape::Number(least, most) => self.define_number(least, most),
            Shape::BucketPlace | Shape::ClientPlace => self.define_number(0, u64::MAX),
            Shape::Text(texts) => self.push(&["\"type\":\"string\"", text_pattern(texts)]),
            Shape::Blob(bytes) => self.define_blob(bytes),
            Shape::Word(words) => self.define_words(words),
            Shape::List(item, least) => self.define_list(item, least),
            Shape::Row(forms) => self.define_row(&[], forms),
            Shape::Tagged(tag, forms) => self.define_row(&[tag], forms),
            Shape::Keyed(keys) => self.define_pairs(keys),
            Shape::Object(members) => self.define_object(members),
            Shape::Choice(forms) => self.define_choice(forms),
            Shape::ByLength(short, long) => self.define_choice(&[short, long]),
        }
    }

    fn define_number(&mut self, least: u64, most: u64) -> Result<(), OutOfMemory> {
        let least = format!(in self.alloc; "{least}")?;
        let most = format!(in self.alloc; "{most}")?;
        self.push(&[
            "\"type\":\"integer\",\"minimum\":",
            least.as_str(),
            ",\"maximum\":",
            most.as_str(),
        ])
    }

    // A text, or an object with pairs of digits.
    fn define_blob(&mut self, bytes: Bytes) -> Result<(), OutOfMemory> {
        let pattern = match bytes {
            Bytes::Any => "",
            Bytes::HeaderValue =>
                ",\"pattern\":\"^[^\\\\u0000-\\\\u0008\\\\u000a-\\\\u001f\\\\u007f]*$\"",
        };
        self.push(&[
            "\"anyOf\":[{\"type\":\"string\"",
            pattern,
            "},{\"type\":\"object\",\"properties\":{\"hex\":{\"type\":\"string\",",
            "\"pattern\":\"^([0-9a-f]{2})*$\"}},\"required\":[\"hex\"],\"additionalProperties\":false}]",
        ])
    }

    fn define_words(&mut self, words: &[&str]) -> Result<(), OutOfMemory> {
        let words = listed(self.alloc, words)?;
        self.push(&["\"enum\":[", words.as_str(), "]"])
    }

    fn define_list(&mut self, item: Form, least: usize) -> Result<(), OutOfMemory> {
        self.push(&["\"type\":\"array\",\"items\":{"])?;
        self.refer(item)?;
        let least = format!(in self.alloc; "}},\"minItems\":{least}")?;
        self.push(&[least.as_str()])
    }

    // An array of words and of forms.
    fn define_row(&mut self, words: &[&str], forms: &[Form]) -> Result<(), OutOfMemory> {
        self.push(&["\"type\":\"array\",\"prefixItems\":["])?;
        for word in words {
            self.push(&["{\"const\":\"", *word, "\"}"])?;
        }
        let mut front = if words.is_empty() { "{" } else { ",{" };
        for form in forms {
            self.push(&[front])?;
            self.refer(*form)?;
            self.push(&["}"])?;
            front = ",{";
        }
        let count = words.len().saturating_add(forms.len());
        let count = format!(in self.alloc; "],\"minItems\":{count},\"maxItems\":{count}")?;
        self.push(&[count.as_str()])
    }

    fn define_choice(&mut self, forms: &[Form]) -> Result<(), OutOfMemory> {
        self.push(&["\"anyOf\":["])?;
        let mut front = "{";
        for form in forms {
            self.push(&[front])?;
            self.refer(*form)?;
            self.push(&["}"])?;
            front = ",{";
        }
        self.push(&["]"])
    }

    // A pair for each key.
    fn define_pairs(&mut self, keys: Keys) -> Result<(), OutOfMemory> {
        self.push(&["\"anyOf\":["])?;
        for key in keys_of(keys) {
            if let Some(form) = form_of_key(keys, *key) {
                self.push(&["\n{\"prefixItems\":[{\"const\":\"", *key, "\"},"])?;
                self.define_value(keys, form)?;
                self.push(&["},"])?;
            }
        }
        self.push(&["\n", own_pair(keys)])?;
        self.push(&["],\"type\":\"array\",\"minItems\":2,\"maxItems\":2"])
    }

    // The second item of a pair. A setting's may be null.
    fn define_value(&mut self, keys: Keys, form: Form) -> Result<(), OutOfMemory> {
        self.push(&["{\"anyOf\":[{"])?;
        self.refer(form)?;
        self.push(&[if keys == Keys::Settings {
            "},{\"type\":\"null\"}]}]"
        } else {
            "}]}]"
        }])
    }

    fn define_object(&mut self, members: &[Member]) -> Result<(), OutOfMemory> {
        let mut needed = Vec::new(self.alloc);
        let mut front = "\"type\":\"object\",\"properties\":{\"";
        for member in members {
            self.push(&[front, member.name, "\":{"])?;
            self.refer(member.form)?;
            self.push(&["}"])?;
            front = ",\"";
            if member.is_needed {
                needed.push(member.name)?;
            }
        }
        let needed = listed(self.alloc, &needed)?;
        self.push(&[
            "},\"required\":[",
            needed.as_str(),
            "],\"additionalProperties\":false",
        ])
    }
}

fn text_pattern(texts: Texts) -> &'static str {
    match texts {
        Texts::Any => "",
        Texts::HeaderName => ",\"pattern\":\"^[0-9A-Za-z!#$%&'*+.^_`|~-]+$\"",
    }
}

// A pair whose key isn't known by name. No question has one.
fn own_pair(keys: Keys) -> &'static str {
    match keys {
        Keys::Settings => {
            "{\"prefixItems\":[{\"type\":\"string\",\"pattern\":\"^user\\\\.\"},{\"anyOf\":[{\"$ref\":\"#/$defs/blob\"},{\"type\":\"null\"}]}]}"
        }
        Keys::Questions => "false",
    }
}
