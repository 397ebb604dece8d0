//! `seq!`: a parser of the fields of a struct, one after another.

/// Writes the parser that reads the fields of a struct, of a tuple struct or of a tuple, one after
/// another, each by a parser of its own. A field `_` is read and left out. A struct may end in `..`
/// and a value, which has the fields that are not read.
///
/// There are at most ten parsers, those of `_` among them. The failure is that of the parser that
/// failed, and the stream stands where that one left it. No parser may use a field that was read
/// before it: `flat_map` does.
///
/// ```
/// let point = seq! {Point {
///     x: dec_uint::<u32>(),
///     _: (one_of(','), space0()),
///     y: dec_uint::<u32>(),
/// }};
/// ..
/// let pair = seq!((dec_uint::<u32>(), _: (one_of(','), space0()), dec_uint::<u32>()));
/// ```
#[macro_export]
macro_rules! seq {
    (@fields $name:tt [$($parser:expr,)*] $values:tt $fields:tt) => {
        $crate::seq!(@read [$($parser),*] $values $name { $fields })
    };
    (@fields $name:tt [$($parser:expr,)*] $values:tt [$($field:ident,)*] .. $base:expr) => {
        $crate::seq!(@read [$($parser),*] $values $name { [$($field,)* ..$base] })
    };
    (@fields $name:tt [$($parser:expr,)*] [$($value:pat,)*] $fields:tt
        _: $next:expr $(, $($rest:tt)*)?) => {
        $crate::seq!(@fields $name [$($parser,)* $next,] [$($value,)* _,] $fields $($($rest)*)?)
    };
    (@fields $name:tt [$($parser:expr,)*] [$($value:pat,)*] [$($field:ident,)*]
        $here:ident: $next:expr $(, $($rest:tt)*)?) => {
        $crate::seq!(@fields $name [$($parser,)* $next,] [$($value,)* $here,] [$($field,)* $here,]
            $($($rest)*)?)
    };
    (@values $name:tt [$($parser:expr,)*] $values:tt [$($made:ident,)*]) => {
        $crate::seq!(@read [$($parser),*] $values $name ( [$($made),*] ))
    };
    (@values $name:tt [$($parser:expr,)*] [$($value:pat,)*] $made:tt
        _: $next:expr $(, $($rest:tt)*)?) => {
        $crate::seq!(@values $name [$($parser,)* $next,] [$($value,)* _,] $made $($($rest)*)?)
    };
    (@values $name:tt [$($parser:expr,)*] [$($value:pat,)*] [$($made:ident,)*]
        $next:expr $(, $($rest:tt)*)?) => {
        $crate::seq!(@values $name [$($parser,)* $next,] [$($value,)* value,] [$($made,)* value,]
            $($($rest)*)?)
    };
    (@read [$($parser:expr),*] [$($value:pat,)*] [$($name:tt)*] { [$($fields:tt)*] }) => {
        $crate::Parser::map(($($parser),*), move |($($value),*)| $($name)* { $($fields)* })
    };
    (@read [$($parser:expr),*] [$($value:pat,)*] [$($name:tt)*] ( [$($made:tt)*] )) => {
        $crate::Parser::map(($($parser),*), move |($($value),*)| $($name)* ( $($made)* ))
    };
    (($($fields:tt)+)) => {
        $crate::seq!(@values [] [] [] [] $($fields)+)
    };
    ($($name:ident)::+ { $($fields:tt)+ }) => {
        $crate::seq!(@fields [$($name)::+] [] [] [] $($fields)+)
    };
    ($($name:ident)::+ ( $($fields:tt)+ )) => {
        $crate::seq!(@values [$($name)::+] [] [] [] $($fields)+)
    };
}
