//! The format of a request, by those of its fields.

ghost use Rattle.example_socks.specs.Commands.{command_code};

use crate::target::{Target, TargetCases, target_format};
use winnow_codec::{
    After, Be, ByCode, Coded, EnumOf, Fields, OneByte, Only, Struct, Unwritten, be_u16, by_code_of,
    byte, known_then, struct_of, write_three,
};

/// What the client asks for.
#[derive(Clone, Copy, Debug, PartialEq, Eq)]
pub enum Command {
    /// A connection to the target
    Connect,
    /// A port that the target connects to
    Bind,
    /// A relay of datagrams
    Associate,
}

impl Coded<u8> for Command {
    ghost code = { command_code };

    fn from_code(number: u8) -> Option<Self> {
        match number {
            1 => Some(Command::Connect),
            2 => Some(Command::Bind),
            3 => Some(Command::Associate),
            _ => None,
        }
    }

    fn to_code(&self) -> u8 {
        match self {
            Command::Connect => 1,
            Command::Bind => 2,
            Command::Associate => 3,
        }
    }
}

/// A request.
#[derive(Debug, Drop)]
pub struct Request {
    /// What the client asks for
    pub command: Command,
    /// Where it wants to go
    pub target: Target,
    /// The port there
    pub port: u16,
}

/// The formats of the fields of a request: the version comes first, and a zero before the target.
pub type RequestFields = (
    After<Only<5>, ByCode<Command, OneByte>>,
    After<Only<0>, EnumOf<Target>>,
    Be<u16>,
);

impl Fields for Request {
    type Format = RequestFields;

    ghost fields = { λ r. (r.command, r.target, r.port) };

    fn from_fields(values: (Command, Target, u16)) -> Self {
        let (command, target, port) = values;
        Request {
            command,
            target,
            port,
        }
    }

    fn write_fields(&self, format: &RequestFields, bytes: &mut Vec<u8>) -> Result<(), Unwritten> {
        write_three(format, &self.command, &self.target, &self.port, bytes)
    }
}

/// Returns the format of a request.
pub fn request_format() -> Struct<Request> {
    struct_of((
        known_then(Only, by_code_of(byte())),
        known_then(Only, target_format()),
        be_u16(),
    ))
}
