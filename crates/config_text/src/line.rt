//! A line under construction. One buffer serves all lines of a text, each piece is written to its end.

ghost use Rattle.std.specs.Prelude.{◌≡◌, ◌++◌, ◌∷◌, [], ℕ, List, OnOk, IfOk};
ghost use Rattle.std.specs.Fmt.{decimal};
ghost use Rattle.merlin_base.specs.Addresses.{mac_text, ip_text};

use crate::addresses::mac_bytes;
use itoa::Buffer;
use merlin_base::{Name, OutOfMemory, name_from};
use std::alloc::Global;
use std::marker::Model;

/// A line under construction, seen as its bytes so far.
#[derive(Drop)]
pub(crate) struct Line {
    text: Vec<u8>,
}

impl Model for Line {
    ghost Value = { List ℕ };

    ghost view = { λ line. line.text.items };
}

impl Line {
    /// An empty line.
    pub(crate) fn new(alloc: Global) -> Line
        ensures { result ≡ [] }
    {
        Line {
            text: Vec::new(alloc),
        }
    }

    /// Begins anew, with this word.
    pub(crate) fn begin(&mut self, word: &[u8]) -> Result<(), OutOfMemory>
        ensures { OnOk result (self.new ≡ word.now) }
    {
        self.text.clear();
        self.text.extend_from_slice(word)?;
        Ok(())
    }

    /// These bytes.
    pub(crate) fn text(&mut self, text: &[u8]) -> Result<(), OutOfMemory>
        ensures { OnOk result (self.new ≡ self.old ++ text.now) }
    {
        self.text.extend_from_slice(text)?;
        Ok(())
    }

    /// One byte.
    pub(crate) fn byte(&mut self, byte: u8) -> Result<(), OutOfMemory>
        ensures { OnOk result (self.new ≡ self.old ++ byte ∷ []) }
    {
        self.text.push(byte)?;
        Ok(())
    }

    /// A number in decimal.
    pub(crate) fn number(&mut self, value: u64) -> Result<(), OutOfMemory>
        ensures { OnOk result (self.new ≡ self.old ++ decimal value) }
    {
        let mut digits = Buffer::new();
        self.text
            .extend_from_slice(digits.format(value).as_bytes())?;
        Ok(())
    }

    /// An Ethernet address.
    pub(crate) fn mac(&mut self, eth: u64) -> Result<(), OutOfMemory>
        ensures { OnOk result (self.new ≡ self.old ++ mac_text eth) }
    {
        self.text.extend_from_slice(&mac_bytes(eth))?;
        Ok(())
    }

    /// An IPv4 address.
    pub(crate) fn ip(&mut self, ip: u32) -> Result<(), OutOfMemory>
        ensures { OnOk result (self.new ≡ self.old ++ ip_text ip) }
    {
        let [a, b, c, d] = ip.to_be_bytes();
        self.number(u64::from(a))?;
        self.byte(b'.')?;
        self.number(u64::from(b))?;
        self.byte(b'.')?;
        self.number(u64::from(c))?;
        self.byte(b'.')?;
        self.number(u64::from(d))
    }

    /// One more word, after a space.
    pub(crate) fn word(&mut self, word: &[u8]) -> Result<(), OutOfMemory>
        ensures { OnOk result (self.new ≡ self.old ++ 32 ∷ word.now) }
    {
        self.text.push(b' ')?;
        self.text.extend_from_slice(word)?;
        Ok(())
    }

    /// One more word, a number in decimal.
    pub(crate) fn number_word(&mut self, value: u64) -> Result<(), OutOfMemory>
        ensures { OnOk result (self.new ≡ self.old ++ 32 ∷ decimal value) }
    {
        self.text.push(b' ')?;
        self.number(value)
    }

    /// What is written so far.
    pub(crate) fn bytes(&self) -> &[u8]
        ensures { result.now ≡ self.now }
    {
        &self.text
    }

    /// A copy of what is written so far.
    pub(crate) fn name(&self) -> Result<Name, OutOfMemory>
        ensures { IfOk result (λ name. name ≡ self.now) }
    {
        name_from(*self.text.allocator(), &self.text)
    }
}
