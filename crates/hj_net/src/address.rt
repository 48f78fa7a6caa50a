ghost use Rattle.std.specs.Prelude.{◌≡◌, [], ◌∷◌};
ghost use Rattle.std.specs.Net.Addr.{ipv4_octets};
ghost use Rattle.std.specs.Net.Socket.{v4_ip, v4_port};
ghost use Rattle.std.specs.Str.{all_ascii_digits};
ghost use Rattle.hj_net.specs.Address.{address_of, port_of};

use std::net::{Ipv4Addr, SocketAddrV4};

const LISTEN: &str = "listen:";

/// What a stream's name asks for.
#[derive(Clone, Copy, PartialEq, Eq)]
pub enum Address {
    /// The file of this name.
    File,
    /// A connection that comes to this port of this machine.
    Port(u16),
}

/// Reads the address that a name spells. A name that begins with `listen:` spells a port, in digits, or nothing.
pub fn address_of(name: &str) -> Option<Address>
    ensures { result ≡ address_of name.now }
{
    match name.strip_prefix(LISTEN) {
        Some(digits) => read_port(digits).map(Address::Port),
        None => Some(Address::File),
    }
}

/// Gives the address at which a port is listened to: that of this machine, which no other machine reaches.
pub fn socket_of(port: u16) -> SocketAddrV4
    ensures this_machine { ipv4_octets (v4_ip result) ≡ 127 ∷ 0 ∷ 0 ∷ 1 ∷ [] }
    ensures port { v4_port result ≡ port }
{
    SocketAddrV4::new(Ipv4Addr::LOCALHOST, port)
}

/// Reads the port from 1 to 65535 that digits spell.
fn read_port(digits: &str) -> Option<u16>
    ensures { result ≡ port_of digits.now }
{
    if !are_digits(digits) {
        return None;
    }
    let port = digits.parse::<u16>().ok()?;
    (port > 0).then_some(port)
}

/// Returns whether each byte is a digit 0 to 9.
fn are_digits(word: &str) -> bool
    ensures { result ≡ all_ascii_digits word.now }
{
    word.bytes().all(|b| b.is_ascii_digit())
}
