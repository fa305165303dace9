//! The fields that a match names.

ghost use Rattle.std.specs.Prelude.{◌≡◌, ◌++◌, ◌∷◌, OnOk, IfOk, codes};
ghost use Rattle.std.specs.Fmt.{decimal};
ghost use Rattle.merlin_base.specs.Addresses.{mac_text, ip_text};
ghost use Rattle.config_text.specs.Words.{field};
ghost use Rattle.config_text.specs.Lines.{vlan_text, type_field, match_text};
ghost use Rattle.config_text.specs.Separated.{AreTextsAdded};

use crate::line::Line;
use crate::lists::{FIRST, NEXT, end_list};
use merlin_base::OutOfMemory;
use merlin_model::config::{Match, Vlan};

// What stands before a field's value.
fn begin_field(line: &mut Line, separator: u8, name: &[u8]) -> Result<(), OutOfMemory>
    ensures { OnOk result (line.new ≡ line.old ++ separator ∷ (name.now ++ codes "=")) }
{
    line.byte(separator)?;
    line.text(name)?;
    line.byte(b'=')
}

// The field of a number, and what stands before the next field. So below for fields of other kinds.
fn number_field(
    line: &mut Line,
    separator: u8,
    name: &[u8],
    value: Option<u16>,
) -> Result<u8, OutOfMemory>
    ensures { IfOk result (λ next.
        AreTextsAdded separator line.old (field name.now decimal value) next line.new) }
{
    let Some(value) = value else {
        return Ok(separator);
    };
    begin_field(line, separator, name)?;
    line.number(u64::from(value))?;
    Ok(NEXT)
}

fn proto_field(line: &mut Line, separator: u8, value: Option<u8>) -> Result<u8, OutOfMemory>
    ensures { IfOk result (λ next.
        AreTextsAdded separator line.old (field (codes "nw_proto") decimal value) next line.new) }
{
    let Some(value) = value else {
        return Ok(separator);
    };
    begin_field(line, separator, b"nw_proto")?;
    line.number(u64::from(value))?;
    Ok(NEXT)
}

fn mac_field(
    line: &mut Line,
    separator: u8,
    name: &[u8],
    value: Option<u64>,
) -> Result<u8, OutOfMemory>
    ensures { IfOk result (λ next.
        AreTextsAdded separator line.old (field name.now mac_text value) next line.new) }
{
    let Some(value) = value else {
        return Ok(separator);
    };
    begin_field(line, separator, name)?;
    line.mac(value)?;
    Ok(NEXT)
}

fn ip_field(
    line: &mut Line,
    separator: u8,
    name: &[u8],
    value: Option<u32>,
) -> Result<u8, OutOfMemory>
    ensures { IfOk result (λ next.
        AreTextsAdded separator line.old (field name.now ip_text value) next line.new) }
{
    let Some(value) = value else {
        return Ok(separator);
    };
    begin_field(line, separator, name)?;
    line.ip(value)?;
    Ok(NEXT)
}

fn vlan_field(line: &mut Line, separator: u8, value: Option<Vlan>) -> Result<u8, OutOfMemory>
    ensures { IfOk result (λ next.
        AreTextsAdded separator line.old (field (codes "dl_vlan") vlan_text value) next line.new) }
{
    let Some(value) = value else {
        return Ok(separator);
    };
    begin_field(line, separator, b"dl_vlan")?;
    match value {
        Vlan::Untagged => line.text(b"none")?,
        Vlan::Tag(tag) => line.number(u64::from(tag))?,
    }
    Ok(NEXT)
}

fn type_field(line: &mut Line, separator: u8, is_named: bool) -> Result<u8, OutOfMemory>
    ensures { IfOk result (λ next.
        AreTextsAdded separator line.old (type_field is_named) next line.new) }
{
    if !is_named {
        return Ok(separator);
    }
    line.byte(separator)?;
    line.text(b"dl_type=0x0800")?;
    Ok(NEXT)
}

/// One more word: the fields of a match in order, joined by commas, or `any` where it names none.
pub(crate) fn match_word(line: &mut Line, fits: &Match) -> Result<(), OutOfMemory>
    ensures { OnOk result (line.new ≡ line.old ++ 32 ∷ match_text fits.now) }
{
    let separator = number_field(line, FIRST, b"in_port", fits.in_port)?;
    let separator = mac_field(line, separator, b"dl_src", fits.dl_src)?;
    let separator = mac_field(line, separator, b"dl_dst", fits.dl_dst)?;
    let separator = vlan_field(line, separator, fits.dl_vlan)?;
    let separator = type_field(line, separator, fits.dl_type)?;
    let separator = proto_field(line, separator, fits.nw_proto)?;
    let separator = ip_field(line, separator, b"nw_src", fits.nw_src)?;
    let separator = ip_field(line, separator, b"nw_dst", fits.nw_dst)?;
    let separator = number_field(line, separator, b"tp_src", fits.tp_src)?;
    let separator = number_field(line, separator, b"tp_dst", fits.tp_dst)?;
    end_list(line, separator, b"any")
}
