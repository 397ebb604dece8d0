//! Constructors whose name is that of their type but for the case: a module may not have both.

use crate::Float;
use std::marker::PhantomData;

/// Returns the parser of a float in decimal digits: the value of `R`, which is `f32` or `f64`, that
/// is nearest to the number, of two that are as near the one whose last bit is 0. A number that is
/// too great for the type is an infinity, and one that is too small a zero, with its sign.
///
/// The text is a sign or none, digits with a point after any of them or before the first, or none,
/// and perhaps an `e` or `E` with a sign or none and further digits. `inf` and `infinity`, with a
/// sign or none, and `nan` are floats too, in small letters or capitals. If no digit follows an `e`
/// after a number, the parser backtracks.
///
/// ```
/// let celsius = terminated(float::<f64>(), "°C");
/// ```
pub fn float<R>() -> Float<R> {
    Float { value: PhantomData }
}
