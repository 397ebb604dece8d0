//! The bits of a header, as questions to a message.

ghost use Rattle.std.specs.Prelude.{◌≡◌};
ghost use Rattle.format_dns.specs.Flags.{has_bit, opcode_of, rcode_of};

use crate::Message;

impl Message {
    /// Returns whether the message is a response (QR), and no query.
    pub fn is_response(&self) -> bool
        ensures { result ≡ has_bit self.now.flags 32768 }
    {
        self.flags / 32_768 % 2 == 1
    }

    /// Returns the kind of query (OPCODE): 0 is a standard query.
    pub fn opcode(&self) -> u8
        ensures { result ≡ opcode_of self.now.flags }
    {
        (self.flags / 2048 % 16) as u8
    }

    /// Returns whether an authority of the name answers (AA).
    pub fn is_authoritative(&self) -> bool
        ensures { result ≡ has_bit self.now.flags 1024 }
    {
        self.flags / 1024 % 2 == 1
    }

    /// Returns whether the message was cut off (TC).
    pub fn is_truncated(&self) -> bool
        ensures { result ≡ has_bit self.now.flags 512 }
    {
        self.flags / 512 % 2 == 1
    }

    /// Returns whether a recursive answer is wanted (RD).
    pub fn wants_recursion(&self) -> bool
        ensures { result ≡ has_bit self.now.flags 256 }
    {
        self.flags / 256 % 2 == 1
    }

    /// Returns whether the server gives recursive answers (RA).
    pub fn offers_recursion(&self) -> bool
        ensures { result ≡ has_bit self.now.flags 128 }
    {
        self.flags / 128 % 2 == 1
    }

    /// Returns the code of the answer (RCODE): 0 is no error, 3 no such name.
    pub fn response_code(&self) -> u8
        ensures { result ≡ rcode_of self.now.flags }
    {
        (self.flags % 16) as u8
    }
}
