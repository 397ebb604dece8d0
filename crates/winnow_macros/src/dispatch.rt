//! `dispatch!`: a parser that is chosen by a value that was read.

/// Writes the parser that reads a value by the first parser, and then by the parser of the arm that
/// a `match` on this value chooses. As in a `match`, the patterns must have an arm for each value.
///
/// The parsers of all arms return values of one type. The failure is that of the parser that was
/// chosen, and the stream stands where that one left it: no other arm is tried. Where the first
/// parser fails, its failure is returned.
///
/// The parser of an arm is made when its arm is chosen, and may use the names that the pattern
/// binds. Other names of the caller are copied or moved into the parser: lend a parser that is not
/// `Copy` by a reference.
///
/// ```
/// let escaped = dispatch! {any();
///     'b' => empty().value('\u{8}'),
///     'n' => empty().value('\n'),
///     't' => empty().value('\t'),
///     '\\' => empty().value('\\'),
///     '"' => empty().value('"'),
///     _ => fail(),
/// };
/// ```
#[macro_export]
macro_rules! dispatch {
    (@arm [] $parser:expr) => {
        $parser
    };
    (@arm [other $($before:tt)*] $parser:expr) => {
        $crate::Chosen::Other($crate::dispatch!(@arm [$($before)*] $parser))
    };
    (@arms $value:ident [$($before:tt)*] [$($done:tt)*]
        $pattern:pat $(if $test:expr)? => $parser:expr $(,)?) => {
        match $value {
            $($done)*
            $pattern $(if $test)? => $crate::dispatch!(@arm [$($before)*] $parser),
        }
    };
    (@arms $value:ident [$($before:tt)*] [$($done:tt)*]
        $pattern:pat $(if $test:expr)? => $parser:expr, $($arms:tt)+) => {
        $crate::dispatch!(@arms $value [other $($before)*] [
            $($done)*
            $pattern $(if $test)? => {
                $crate::dispatch!(@arm [$($before)*] $crate::Chosen::First($parser))
            }
        ] $($arms)+)
    };
    ($first:expr; $($arms:tt)+) => {
        $crate::Parser::flat_map(
            $first,
            move |value| $crate::dispatch!(@arms value [] [] $($arms)+),
        )
    };
}
