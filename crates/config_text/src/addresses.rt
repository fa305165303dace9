//! The texts of addresses.

ghost use Rattle.std.specs.Prelude.{◌≡◌, ◌<◌, false};
ghost use Rattle.std.specs.Fmt.{digit_glyph};
ghost use Rattle.merlin_base.specs.Addresses.{mac_text};

// A hexadecimal digit, in lower case.
fn hex_digit(value: u8) -> u8
    requires { value < 16 }
    ensures { result ≡ digit_glyph false value }
{
    if value < 10 {
        b'0' + value
    } else {
        b'a' + (value - 10)
    }
}

/// The text of an Ethernet address, of which the lowest 48 bits count: six pairs of lower-case hexadecimal digits, joined by colons.
pub fn mac_bytes(eth: u64) -> [u8; 17]
    ensures { result ≡ mac_text eth }
{
    let [_, _, a, b, c, d, e, f] = eth.to_be_bytes();
    [
        hex_digit(a / 16),
        hex_digit(a % 16),
        b':',
        hex_digit(b / 16),
        hex_digit(b % 16),
        b':',
        hex_digit(c / 16),
        hex_digit(c % 16),
        b':',
        hex_digit(d / 16),
        hex_digit(d % 16),
        b':',
        hex_digit(e / 16),
        hex_digit(e % 16),
        b':',
        hex_digit(f / 16),
        hex_digit(f % 16),
    ]
}
