//! The format of a target: an enum by the cases of a tag.

ghost use Rattle.example_socks.specs.Targets.{target_case};

use winnow_codec::{
    At, Be, BytesAfter, Choice, Count, EnumOf, LastAt, OneByte, Tagged, Unwritten, Variants,
    be_u32, be_u64, by_tag, byte, bytes_after, count_of, enum_of, u8, write_first,
    write_last_of_three, write_second,
};

/// Where a client wants to go.
#[derive(Debug, Drop)]
pub enum Target {
    /// An address of version 4
    Address4(u32),
    /// The name of a domain
    Domain(Vec<u8>),
    /// An address of version 6, in two halves
    Address6((u64, u64)),
}

/// The cases of a target, by its type of address.
pub type TargetCases = Tagged<
    OneByte,
    At<1, Be<u32>, At<3, BytesAfter<Be<Count<u8>>>, LastAt<4, (Be<u64>, Be<u64>)>>>,
>;

impl Variants for Target {
    type Format = TargetCases;

    ghost variant = { target_case };

    fn from_variant(value: Choice<u32, Choice<Vec<u8>, (u64, u64)>>) -> Self {
        match value {
            Choice::First(address) => Target::Address4(address),
            Choice::Other(Choice::First(name)) => Target::Domain(name),
            Choice::Other(Choice::Other(address)) => Target::Address6(address),
        }
    }

    fn write_variant(&self, format: &TargetCases, bytes: &mut Vec<u8>) -> Result<(), Unwritten> {
        match self {
            Target::Address4(address) => write_first(format, address, bytes),
            Target::Domain(name) => write_second(format, name, bytes),
            Target::Address6(address) => write_last_of_three(format, address, bytes),
        }
    }
}

/// Returns the format of a target.
pub fn target_format() -> EnumOf<Target> {
    let name = bytes_after(count_of(u8()));
    enum_of(by_tag(byte(), At(be_u32(), At(name, LastAt((be_u64(), be_u64()))))))
}
