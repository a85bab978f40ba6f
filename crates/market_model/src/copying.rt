//! Copies of enums, variant by variant.

/// The value with the same variant and equal fields. It is used in a function that answers a
/// `Result`: the fields of a `plain` variant are `Copy`, those of a `deep` one are copied by
/// `Duplicate::copy` and may want memory.
macro_rules! copy_variants {
    (
        $value:expr, $of:ident;
        plain $($plain:ident { $($field:ident),+ }),+;
        deep $($deep:ident { $($part:ident),+ }),+
    ) => {
        match $value {
            $($of::$plain { $($field),+ } => $of::$plain { $($field: *$field),+ },)+
            $($of::$deep { $($part),+ } => $of::$deep { $($part: $part.copy()?),+ },)+
        }
    };
}

pub(crate) use copy_variants;
