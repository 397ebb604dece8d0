//! Records of TLS and extensions of its handshake (RFC 8446, sections 5.1 and 4.2), read and
//! written by one description, with no proof.
#![tactic(auto)]

mod exchange;
mod extension_list;
mod records;

pub use exchange::{read_extensions, read_record, record_law, write_extensions, write_record};
pub use extension_list::{Extension, ExtensionFields, Extensions, extensions};
pub use records::{ContentType, LONGEST, TlsFields, TlsRecord, tls_record};
