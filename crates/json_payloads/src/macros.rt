//! What the two functions of a structure's form are written by.

/// The object that a structure is printed as, a member a line:
/// `print_object!(alloc, "name" => &self.name, "weight" => &self.weight)`. It is one call, which is
/// dear to prove with more than sixteen members: then write `begin_object`, `add_members` and
/// `end_object` out.
#[macro_export]
macro_rules! print_object {
    ($alloc:expr, $($name:literal => $value:expr),+ $(,)?) => {
        $crate::print_members($alloc, &[$($name),+], &$crate::values!($($value),+))
    };
}

/// The structure that is read of an object, with the name of each field's member:
/// `read_object!(alloc, value => Parcel { name: "name", weight: "weightGrams" })`.
#[macro_export]
macro_rules! read_object {
    ($alloc:expr, $value:expr => $type:ident { $($field:ident: $name:literal),+ $(,)? }) => {{
        let $crate::members!($($field),+) = $crate::read_members($alloc, $value, &[$($name),+])?;
        Ok($type { $($field),+ })
    }};
}

/// A pattern of nested pairs, which `read_members` answers: `members!(name, weight)` is
/// `(name, (weight, ()))`.
#[macro_export]
macro_rules! members {
    () => { () };
    ($first:ident $(, $rest:ident)* $(,)?) => { ($first, $crate::members!($($rest),*)) };
}

/// Values as nested pairs, which `print_members` takes.
#[macro_export]
macro_rules! values {
    () => { () };
    ($first:expr $(, $rest:expr)* $(,)?) => { ($first, $crate::values!($($rest),*)) };
}
