//! Addresses as texts.

ghost use Rattle.std.specs.Prelude.{◌≡◌, ◌<◌, false, IfOk};
ghost use Rattle.std.specs.Fmt.{digit_glyph};
ghost use Rattle.merlin_base.specs.Addresses.{mac_text, ip_text};

use merlin_model::{Name, OutOfMemory, name_from};
use std::alloc::Global;

// A hexadecimal digit, in lower case.
fn hex_digit(value: u8) -> u8
    requires { value < 16 }
    ensures { result ≡ digit_glyph false value }
{
    if value < 10 {
        b'0' + value
    } else {
        b'a' + (value - 10)
    }
}

/// An Ethernet address, of which the lowest 48 bits count: six pairs of lower-case hexadecimal digits, joined by colons.
pub fn mac_text(alloc: Global, eth: u64) -> Result<Name, OutOfMemory>
    ensures { IfOk result (λ text. text ≡ mac_text eth) }
{
    let [_, _, a, b, c, d, e, f] = eth.to_be_bytes();
    let text = [
        hex_digit(a / 16),
        hex_digit(a % 16),
        b':',
        hex_digit(b / 16),
        hex_digit(b % 16),
        b':',
        hex_digit(c / 16),
        hex_digit(c % 16),
        b':',
        hex_digit(d / 16),
        hex_digit(d % 16),
        b':',
        hex_digit(e / 16),
        hex_digit(e % 16),
        b':',
        hex_digit(f / 16),
        hex_digit(f % 16),
    ];
    name_from(alloc, &text)
}

/// An IPv4 address: four decimal numbers, joined by dots.
pub fn ip_text(alloc: Global, ip: u32) -> Result<Name, OutOfMemory>
    ensures { IfOk result (λ text. text ≡ ip_text ip) }
{
    let [a, b, c, d] = ip.to_be_bytes();
    let text = format!(in alloc; "{a}.{b}.{c}.{d}")?;
    name_from(alloc, text.as_bytes())
}
