//! JSON without floats, as it is printed.
ghost use Rattle.std.specs.Prelude.{◌≡◌, false};
ghost use Rattle.serde_json.specs.View.{view, items_view};
ghost use Rattle.serde_json.specs.Written.{has_float, items_have_float};

use serde_json::{Map, Number, Value, put};
use smithy_types::OutOfMemory;
use std::alloc::Global;

/// A JSON value in which no number is a float.
pub struct Json {
    value: Value,
    ghost no_float: { has_float (view value) ≡ false },
}

// Written out, so that a drop is one call wherever a value is dropped.
impl Drop for Json {
    fn drop(self) {
        let Json { value: _ } = self;
    }
}

/// The items of an array that is being made.
#[derive(Drop)]
pub struct Row {
    values: Vec<Value>,
    ghost no_float: { items_have_float (items_view values.items) ≡ false },
}

impl Json {
    ghost use Rattle.std.specs.Prelude.{◌≤◌, [], ◌∷◌, ◌++◌, Some, IfOk, IsUtf8, OnOk, OnErr};
    ghost use Rattle.serde_json.specs.Data.{null, boolean, number, string, array, object, unsigned};
    ghost use Rattle.serde_json.specs.Data.{no_items, item, no_members, member, depth};
    ghost use Rattle.serde_json.specs.Read.{read, max_depth};
    ghost use Rattle.serde_json.specs.View.{items_of};
    ghost use Rattle.serde_json.specs.Written.{compact_text};
    ghost use Rattle.json_forms.specs.JsonData.{data_of, items_in};

    /// It takes no memory.
    pub fn null() -> Json
        ensures { data_of result ≡ null }
    {
        Json { value: Value::Null }
    }

    /// It takes no memory.
    pub fn boolean(value: bool) -> Json
        ensures { data_of result ≡ boolean value }
    {
        Json {
            value: Value::Bool(value),
        }
    }

    /// It takes no memory.
    pub fn number(value: u64) -> Json
        ensures { data_of result ≡ number (unsigned value) }
    {
        Json {
            value: Value::Number(Number::from(value)),
        }
    }

    /// A text.
    pub fn text(alloc: Global, text: &str) -> Result<Json, OutOfMemory>
        ensures { IfOk result (λ j. data_of j ≡ string text.now) }
    {
        Ok(Json {
            value: Value::String(String::from_str(alloc, text)?),
        })
    }

    /// A text of two parts.
    pub fn joined(alloc: Global, front: &str, back: &str) -> Result<Json, OutOfMemory>
        ensures { IfOk result (λ j. data_of j ≡ string (front.now ++ back.now)) }
    {
        let mut text = String::from_str(alloc, front)?;
        text.push_str(back)?;
        Ok(Json {
            value: Value::String(text),
        })
    }

    /// An array of one item.
    pub fn single(alloc: Global, only: Json) -> Result<Json, OutOfMemory>
        ensures { IfOk result (λ j. data_of j ≡ array (item (data_of only) no_items)) }
    {
        let mut row = Row::new(alloc);
        row.push(only)?;
        Ok(row.finish())
    }

    /// An array of two items.
    pub fn pair(alloc: Global, first: Json, second: Json) -> Result<Json, OutOfMemory>
        ensures { IfOk result (λ j. data_of j ≡
            array (item (data_of first) (item (data_of second) no_items))) }
    {
        let mut row = Row::new(alloc);
        row.push(first)?;
        row.push(second)?;
        Ok(row.finish())
    }

    /// An array of three items.
    pub fn triple(
        alloc: Global,
        first: Json,
        second: Json,
        third: Json,
    ) -> Result<Json, OutOfMemory>
        ensures { IfOk result (λ j. data_of j ≡
            array (item (data_of first) (item (data_of second) (item (data_of third) no_items)))) }
    {
        let mut row = Row::new(alloc);
        row.push(first)?;
        row.push(second)?;
        row.push(third)?;
        Ok(row.finish())
    }

    /// An array of four items.
    pub fn quadruple(
        alloc: Global,
        first: Json,
        second: Json,
        third: Json,
        fourth: Json,
    ) -> Result<Json, OutOfMemory>
        ensures { IfOk result (λ j. data_of j ≡ array (item (data_of first) (item (data_of second)
            (item (data_of third) (item (data_of fourth) no_items))))) }
    {
        let mut row = Row::new(alloc);
        row.push(first)?;
        row.push(second)?;
        row.push(third)?;
        row.push(fourth)?;
        Ok(row.finish())
    }

    /// An array of a text and an item.
    pub fn tagged(alloc: Global, tag: &str, json: Json) -> Result<Json, OutOfMemory>
        ensures { IfOk result (λ j. data_of j ≡
            array (item (string tag.now) (item (data_of json) no_items))) }
    {
        Json::pair(alloc, Json::text(alloc, tag)?, json)
    }

    /// An object of one member.
    pub fn of_member(alloc: Global, name: &str, json: Json) -> Result<Json, OutOfMemory>
        ensures { IfOk result (λ j. data_of j ≡
            object (member name.now (data_of json) no_members)) }
    {
        let mut members = Map::new(alloc);
        put(&mut members, alloc, name, json.into_value())?;
        Ok(Json {
            value: Value::Object(members),
        })
    }

    /// Writes the value as compact JSON text at the end. The text is of characters, and it is read
    /// as the same value where that nests no deeper than a reader goes.
    pub fn write(&self, alloc: Global, out: &mut Vec<u8>) -> Result<(), OutOfMemory>
        ensures text { OnOk result (out.new.items ≡ out.old.items
            ++ compact_text (data_of self.now)) }
        ensures read_back { OnOk result (depth (data_of self.now) ≤ max_depth
            → read (compact_text (data_of self.now)) ≡ Some (data_of self.now)) }
        ensures characters { OnOk result (IsUtf8 (compact_text (data_of self.now))) }
    {
        let text = self.value.to_vec(alloc)?;
        out.extend_from_slice(&text)?;
        Ok(())
    }

    /// Writes the value as compact JSON text at the end, and a line feed. The text is of
    /// characters, and it is read as the same value where that nests no deeper than a reader goes.
    pub fn write_line(&self, alloc: Global, out: &mut Vec<u8>) -> Result<(), OutOfMemory>
        ensures text { OnOk result (out.new.items ≡ out.old.items ++ compact_text (data_of self.now)
            ++ 10 ∷ []) }
        ensures read_back { OnOk result (depth (data_of self.now) ≤ max_depth
            → read (compact_text (data_of self.now)) ≡ Some (data_of self.now)) }
        ensures characters { OnOk result (IsUtf8 (compact_text (data_of self.now))) }
    {
        self.write(alloc, out)?;
        out.push(b'\n')?;
        Ok(())
    }

    // The value as `serde_json` has it, in which no number is a float.
    fn into_value(self) -> Value
        ensures value { result ≡ self.value }
        ensures no_float { has_float (view result) ≡ false }
    {
        let Json { value } = self;
        value
    }
}

impl Row {
    ghost use Rattle.std.specs.Prelude.{[], ◌∷◌, ◌++◌, IfOk, OnOk, OnErr};
    ghost use Rattle.serde_json.specs.Data.{null, boolean, number, string, array, object, unsigned};
    ghost use Rattle.serde_json.specs.Data.{no_items, item, no_members, member};
    ghost use Rattle.serde_json.specs.View.{items_of};
    ghost use Rattle.serde_json.specs.Written.{compact_text};
    ghost use Rattle.json_forms.specs.JsonData.{data_of, items_in};

    /// No items.
    pub fn new(alloc: Global) -> Row
        ensures { items_in result ≡ [] }
    {
        Row {
            values: Vec::new(alloc),
        }
    }

    /// Adds an item at the end.
    pub fn push(&mut self, json: Json) -> Result<(), OutOfMemory>
        ensures ok { OnOk result (items_in self.new ≡ items_in self.old ++ data_of json ∷ []) }
        ensures err { OnErr result (items_in self.new ≡ items_in self.old) }
    {
        self.values.push(json.into_value())?;
        Ok(())
    }

    /// The array of these items. It takes no memory.
    pub fn finish(self) -> Json
        ensures { data_of result ≡ array (items_of (items_in self)) }
    {
        Json {
            value: Value::Array(self.values),
        }
    }
}
