//! What a packet function sets.
ghost use Rattle.std.specs.Prelude.{◌≡◌, ◌↔◌, ◌++◌, ℕ, List, Option, All, string_bytes, IsTrue, IfSome, IfNone, IfOk, OnOk};
ghost use Rattle.std.specs.BTreeMap.{keys};
ghost use Rattle.serde_json.specs.View.{view};
ghost use Rattle.merlin_base.specs.Lexemes.{IsMac, IsIp};
ghost use Rattle.merlin_model.specs.declared.policy.Field.{Field};
ghost use Rattle.topology_shape.specs.Format.{HasLexeme, HasNumberUpTo, MaySet, IsSetKey, HasOnlySetKeys, AreSettingsOf, IsSetOf, HasSet, setting, settings_list};

use crate::limits::MAX_SET_PORT;
use crate::members::{ip_under, mac_under, number_up_to};
use merlin_model::policy::Field;
use serde_json::{Map, Value};
use sqlite_items::Items;
use std::alloc::{AllocError, Global};

/// What the fields of a packet are set to, if they are.
#[derive(Clone, Copy)]
pub(crate) struct Settings {
    pub(crate) eth_src: Option<u64>,
    pub(crate) ip_src: Option<u64>,
    pub(crate) ip_dst: Option<u64>,
    pub(crate) sport: Option<u64>,
    pub(crate) dport: Option<u64>,
}

fn is_set_key(key: &str) -> bool
    ensures { IsTrue result ↔ IsSetKey key.now }
{
    matches!(key, "eth.src" | "ip.src" | "ip.dst" | "sport" | "dport")
}

fn are_set_keys(members: &Map<String, Value>) -> bool
    ensures { IsTrue result ↔ All (λ key. IsSetKey (string_bytes key)) (keys members.now) }
{
    members.keys().all(|key| is_set_key(key.as_str()))
}

// Whether a value is an object whose members are all known.
fn has_only_set_keys(value: &Value) -> bool
    ensures { IsTrue result ↔ HasOnlySetKeys (view value.now) }
{
    match value.as_object() {
        Some(members) => are_set_keys(members),
        None => false,
    }
}

// The Ethernet address under a key, if the key is there. None where it is there and no such address.
fn mac_if_there(value: &Value, key: &str) -> Option<Option<u64>>
    ensures some { IfSome result (MaySet (HasLexeme IsMac) key.now (view value.now)) }
    ensures none { IfNone result ((eth : Option ℕ) →
        ¬ MaySet (HasLexeme IsMac) key.now (view value.now) eth) }
{
    match value.get(key) {
        Some(_) => Some(Some(mac_under(value, key)?)),
        None => Some(None),
    }
}

// The same of an IPv4 address.
fn ip_if_there(value: &Value, key: &str) -> Option<Option<u64>>
    ensures some { IfSome result (MaySet (HasLexeme IsIp) key.now (view value.now)) }
    ensures none { IfNone result ((ip : Option ℕ) →
        ¬ MaySet (HasLexeme IsIp) key.now (view value.now) ip) }
{
    match value.get(key) {
        Some(_) => Some(Some(u64::from(ip_under(value, key)?))),
        None => Some(None),
    }
}

// The same of a port.
fn port_if_there(value: &Value, key: &str) -> Option<Option<u64>>
    ensures some { IfSome result (MaySet (HasNumberUpTo MAX_SET_PORT) key.now (view value.now)) }
    ensures none { IfNone result ((port : Option ℕ) →
        ¬ MaySet (HasNumberUpTo MAX_SET_PORT) key.now (view value.now) port) }
{
    match value.get(key) {
        Some(_) => Some(Some(number_up_to(value, key, MAX_SET_PORT)?)),
        None => Some(None),
    }
}

// What an object sets.
fn settings_of(object: &Value) -> Option<Settings>
    ensures some { IfSome result (AreSettingsOf (view object.now)) }
    ensures none { IfNone result ((set : List (Field × ℕ)) → ¬ IsSetOf (view object.now) set) }
{
    if !has_only_set_keys(object) {
        return None;
    }
    Some(Settings {
        eth_src: mac_if_there(object, "eth.src")?,
        ip_src: ip_if_there(object, "ip.src")?,
        ip_dst: ip_if_there(object, "ip.dst")?,
        sport: port_if_there(object, "sport")?,
        dport: port_if_there(object, "dport")?,
    })
}

fn push_setting(
    set: &mut Items<(Field, u64)>,
    field: Field,
    value: Option<u64>,
) -> Result<(), AllocError>
    ensures { OnOk result (set.new ≡ set.old ++ setting field value) }
{
    match value {
        Some(value) => set.push((field, value)),
        None => Ok(()),
    }
}

// The settings in the order of the fields of a packet.
fn list_of(alloc: Global, settings: Settings) -> Result<Items<(Field, u64)>, AllocError>
    ensures { IfOk result (λ set. set ≡ settings_list settings) }
{
    let mut set = Items::new(alloc);
    push_setting(&mut set, Field::EthSrc, settings.eth_src)?;
    push_setting(&mut set, Field::IpSrc, settings.ip_src)?;
    push_setting(&mut set, Field::IpDst, settings.ip_dst)?;
    push_setting(&mut set, Field::Sport, settings.sport)?;
    push_setting(&mut set, Field::Dport, settings.dport)?;
    Ok(set)
}

/// What a function sets, nothing where nothing is said of it. None where what is said is wrong.
pub(crate) fn set_of(
    alloc: Global,
    value: &Value,
) -> Result<Option<Items<(Field, u64)>>, AllocError>
    ensures some { IfOk result (λ o. IfSome o (HasSet (view value.now))) }
    ensures none { IfOk result (λ o. IfNone o
        ((set : List (Field × ℕ)) → ¬ HasSet (view value.now) set)) }
{
    let Some(object) = value.get("set") else {
        return Ok(Some(Items::new(alloc)));
    };
    match settings_of(object) {
        Some(settings) => Ok(Some(list_of(alloc, settings)?)),
        None => Ok(None),
    }
}
