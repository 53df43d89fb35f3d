// Clients at a UDP endpoint: an address of 16 bytes and a port.
ghost use Rattle.std.specs.Prelude.{◌≡◌, ◌++◌};
ghost use Rattle.clients.specs.Endpoints.{address_of, port_of};
ghost use Rattle.protocol.specs.Bytes.{be_bytes};

use crate::client::Client;

#[derive(Clone, Copy, PartialEq, Eq, Debug)]
pub struct Endpoint {
    address: u128,
    port: u16,
}

impl Endpoint {
    pub fn new(address: [u8; 16], port: u16) -> Endpoint
        ensures address { address_of result ≡ address }
        ensures port { port_of result ≡ port }
    {
        Endpoint {
            address: u128::from_be_bytes(address),
            port,
        }
    }

    pub fn address(self) -> [u8; 16]
        ensures { result ≡ address_of self }
    {
        self.address.to_be_bytes()
    }

    pub fn port(self) -> u16
        ensures { result ≡ port_of self }
    {
        self.port
    }
}

impl Client for Endpoint {
    ghost identity = { λ e. address_of e ++ be_bytes 2 (port_of e) };

    fn same(&self, other: &Endpoint) -> bool {
        // field by field: a proof knows a number's range where the number itself is read, and not from a derived ==
        self.address == other.address && self.port == other.port
    }
}
