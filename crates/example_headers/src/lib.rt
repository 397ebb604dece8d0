//! The beginnings of headers whose fields are some bits each: of IPv4 (RFC 791), of TCP (RFC 9293),
//! of DNS (RFC 1035) and of zlib (RFC 1950).
#![tactic(auto)]

mod dns;
mod ip;
mod tcp;
mod zlib;

pub use dns::{Dns, DnsStart, read_dns};
pub use ip::{Ip, IpStart, read_ip, read_ip_of_piece};
pub use tcp::{Tcp, TcpEnd, read_tcp};
pub use zlib::{Zlib, ZlibStart, read_zlib};
