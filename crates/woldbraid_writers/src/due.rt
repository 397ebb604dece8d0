//! `Due`: what may come next in a JSON text that is being written.

ghost use Rattle.std.specs.Prelude.{◌≡◌};
ghost use Rattle.woldbraid_writers.specs.Drafts.{takes_value, takes_name, takes_end, needs_comma};
ghost use Rattle.woldbraid_writers.specs.Drafts.{first_in, opening, closing};

/// What a bracket begins.
#[derive(Clone, Copy, Debug, Drop, PartialEq, Eq)]
pub enum Bracket {
    /// An array
    Array,
    /// An object
    Object,
}

/// What may come next.
#[derive(Clone, Copy, Debug, Drop, PartialEq, Eq)]
pub enum Due {
    /// A value: at the start, and after a name
    Value,
    /// The first value of an array, or its end
    FirstValue,
    /// One more value of an array, or its end
    NextValue,
    /// The first name of an object, or its end
    FirstName,
    /// One more name of an object, or its end
    NextName,
    /// Nothing: the text is whole
    Nothing,
}

impl Due {
    /// Returns whether a value may come.
    pub(crate) fn takes_value(self) -> bool
        ensures { result ≡ takes_value self }
    {
        match self {
            Due::Value | Due::FirstValue | Due::NextValue => true,
            Due::FirstName | Due::NextName | Due::Nothing => false,
        }
    }

    /// Returns whether a name may come.
    pub(crate) fn takes_name(self) -> bool
        ensures { result ≡ takes_name self }
    {
        match self {
            Due::FirstName | Due::NextName => true,
            Due::Value | Due::FirstValue | Due::NextValue | Due::Nothing => false,
        }
    }

    /// Returns whether the end of such an array or object may come.
    pub(crate) fn takes_end(self, bracket: Bracket) -> bool
        ensures { result ≡ takes_end self bracket }
    {
        match (self, bracket) {
            (Due::FirstValue, Bracket::Array) => true,
            (Due::NextValue, Bracket::Array) => true,
            (Due::FirstName, Bracket::Object) => true,
            (Due::NextName, Bracket::Object) => true,
            _ => false,
        }
    }

    /// Returns whether a comma stands before a value or a name that comes.
    pub(crate) fn needs_comma(self) -> bool
        ensures { result ≡ needs_comma self }
    {
        match self {
            Due::NextValue | Due::NextName => true,
            Due::Value | Due::FirstValue | Due::FirstName | Due::Nothing => false,
        }
    }
}

impl Bracket {
    /// Returns what may come after it.
    pub(crate) fn first_in(self) -> Due
        ensures { result ≡ first_in self }
    {
        match self {
            Bracket::Array => Due::FirstValue,
            Bracket::Object => Due::FirstName,
        }
    }

    /// Returns the byte that begins it.
    pub(crate) fn opening(self) -> u8
        ensures { result ≡ opening self }
    {
        match self {
            Bracket::Array => b'[',
            Bracket::Object => b'{',
        }
    }

    /// Returns the byte that ends it.
    pub(crate) fn closing(self) -> u8
        ensures { result ≡ closing self }
    {
        match self {
            Bracket::Array => b']',
            Bracket::Object => b'}',
        }
    }
}
