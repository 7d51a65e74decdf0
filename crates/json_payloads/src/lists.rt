//! Lists, and lists with items that may be absent.
ghost use Rattle.std.specs.Prelude.{◌≡◌, true, IfOk, OnOk, map, List, ◌++◌, ◌∷◌, []};
ghost use Rattle.std.specs.List.{list_all};
ghost use Rattle.serde_json.specs.Find.{as_array};
ghost use Rattle.serde_json.specs.View.{view, items_view};
ghost use Rattle.json_payloads.specs.Forms.{option_fits, present_at};
ghost use Rattle.json_payloads.specs.Lists.{list, list_of, null_or, sparse_list};
ghost use Rattle.json_payloads.specs.Reading.{Reads, Gives};

use crate::forms::read_present;
use crate::{JsonForm, ReadError, Refusal, Value};
use smithy_types::{List, OutOfMemory};
use std::alloc::Global;
use std::marker::Model;

/// A list whose items may be absent: null stands for them.
#[derive(Debug, Drop)]
pub struct SparseList<T> {
    items: List<Option<T>>,
}

impl<T> Model for SparseList<T> {
    ghost use Rattle.std.specs.Prelude.{List, Option};

    ghost Value = { List (Option T) };

    ghost view = { λ l. l.items };
}

impl<T> SparseList<T> {
    /// The list of these items. It takes no memory.
    pub fn new(items: List<Option<T>>) -> SparseList<T>
        ensures { result ≡ items }
    {
        SparseList { items }
    }

    /// The items.
    pub fn as_slice(&self) -> &[Option<T>]
        ensures { result.now ≡ self.now }
    {
        self.items.as_slice()
    }
}

impl<T: JsonForm + Drop> JsonForm for List<T> {
    ghost use Rattle.json_payloads.specs.Lists.{list};

    ghost form = { list T.form };

    fn print(&self, alloc: Global) -> Result<Value, OutOfMemory> {
        print_items(alloc, self.as_slice())
    }

    fn read(alloc: Global, value: &Value) -> Result<List<T>, ReadError> {
        read_items(alloc, items_in(value)?)
    }
}

impl<T: JsonForm + Drop> JsonForm for SparseList<T> {
    ghost use Rattle.json_payloads.specs.Lists.{sparse_list};

    ghost form = { sparse_list T.form };

    fn print(&self, alloc: Global) -> Result<Value, OutOfMemory> {
        print_present(alloc, self.as_slice())
    }

    fn read(alloc: Global, value: &Value) -> Result<SparseList<T>, ReadError> {
        Ok(SparseList::new(read_items_present(alloc, items_in(value)?)?))
    }
}

// The items of an array.
fn items_in(value: &Value) -> Result<&[Value], ReadError>
    ensures { Gives (λ s. items_view s.now) result (as_array (view value.now)) }
{
    match value.as_array() {
        Some(items) => Ok(items.as_slice()),
        None => Err(ReadError::Refused(Refusal::WrongType)),
    }
}

// The array of these items.
fn print_items<T: JsonForm>(alloc: Global, items: &[T]) -> Result<Value, OutOfMemory>
    ensures value { IfOk result (λ v. view v ≡ (list T.form).prints items.now) }
    ensures fits { IfOk result (λ _. list_all T.form.fits items.now ≡ true) }
{
    let mut values = Vec::new(alloc);
    for item in items {
        values.push(item.print(alloc)?)?;
    }
    Ok(Value::Array(values))
}

// The items of an array.
#[tactic(auto, using(crate::proofs::ReadLists::list_reading))]
fn read_items<T: JsonForm + Drop>(alloc: Global, items: &[Value]) -> Result<List<T>, ReadError>
    ensures { Reads result (list_of T.form.reads (items_view items.now)) }
{
    let mut list = List::new();
    for value in items {
        match T::read(alloc, value) {
            Ok(item) => list.push(alloc, item)?,
            Err(error) => return Err(error),
        }
    }
    Ok(list)
}

// The array of these items, with null for those that are absent.
fn print_present<T: JsonForm>(alloc: Global, items: &[Option<T>]) -> Result<Value, OutOfMemory>
    ensures value { IfOk result (λ v. view v ≡ (sparse_list T.form).prints items.now) }
    ensures fits { IfOk result (λ _. list_all (option_fits T.form.fits) items.now ≡ true) }
{
    let mut values = Vec::new(alloc);
    for item in items {
        values.push(print_or_null(alloc, item)?)?;
    }
    Ok(Value::Array(values))
}

// Null where there is no value.
fn print_or_null<T: JsonForm>(alloc: Global, item: &Option<T>) -> Result<Value, OutOfMemory>
    ensures value { IfOk result (λ v. view v ≡ null_or T.form.prints item.now) }
    ensures fits { IfOk result (λ _. option_fits T.form.fits item.now ≡ true) }
{
    match item {
        Some(item) => item.print(alloc),
        None => Ok(Value::Null),
    }
}

// The items of an array, of which null is absent.
#[tactic(auto, using(crate::proofs::ReadLists::list_reading))]
fn read_items_present<T: JsonForm + Drop>(
    alloc: Global,
    items: &[Value],
) -> Result<List<Option<T>>, ReadError>
    ensures { Reads result (list_of (present_at T.form) (items_view items.now)) }
{
    let mut list = List::new();
    for value in items {
        match read_present(alloc, value) {
            Ok(item) => list.push(alloc, item)?,
            Err(error) => return Err(error),
        }
    }
    Ok(list)
}
