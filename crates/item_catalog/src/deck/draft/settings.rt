//! Records with settings, and all settings together.

ghost use Rattle.std.specs.Prelude.{◌≡◌, ◌≤◌, drop};
ghost use Rattle.std.specs.List.{list_any};
ghost use Rattle.csv.specs.Records.{fields_of};
ghost use Rattle.air_base.specs.Parts.{two_of};
ghost use Rattle.air_base.specs.declared.limits.TheConstants.{NEWEST_VERSION};
ghost use Rattle.air_model.specs.Buckets.{most_count};
ghost use Rattle.item_catalog.specs.Declarations.{set_by};
ghost use Rattle.item_catalog.specs.Private.Drafts.{AddsDeclaration};
ghost use Rattle.item_catalog.specs.DeckLimits.{SettingsWithin};
ghost use Rattle.item_catalog.specs.Settings.{default_of, groups_vectors, name_of, number_in, number_said, number_set, policy_in, range_of, same_setting, setting_of, settings_in, spelled_policy};

use crate::deck::draft::Draft;
use crate::faults::FaultKind;
use crate::records::fields::two;
use crate::records::refusals::Refusal;
use air_base::limits::{
    DEFAULT_CYCLES, DEFAULT_HEARS, MOST_CYCLES, MOST_DELTA, MOST_FULL_ITEMS, MOST_GROUP,
    MOST_HEARS, MOST_ITEMS, MOST_MONITORS, MOST_SHARE, NEWEST_VERSION,
};
use air_base::{Policy, read_u64};
use air_model::deck::Settings;
use csv::ByteRecord;

/// The settings that are numbers.
#[derive(Clone, Copy, Debug, PartialEq, Eq)]
pub enum Name {
    Delta,
    Version,
    Group,
    Cycles,
    Seed,
    Loss,
    Again,
    Late,
    Monitors,
    Hears,
}

/// A setting and what it is set to.
#[derive(Clone, Copy, Debug, PartialEq, Eq)]
pub enum Setting {
    Policy(Policy),
    Number(Name, u64),
}

/// The setting of this name that is a number.
fn name_of(text: &[u8]) -> Option<Name>
    ensures { result ≡ name_of text.now }
{
    if text == b"delta".as_slice() {
        Some(Name::Delta)
    } else if text == b"version".as_slice() {
        Some(Name::Version)
    } else if text == b"group".as_slice() {
        Some(Name::Group)
    } else if text == b"cycles".as_slice() {
        Some(Name::Cycles)
    } else if text == b"seed".as_slice() {
        Some(Name::Seed)
    } else if text == b"loss".as_slice() {
        Some(Name::Loss)
    } else if text == b"again".as_slice() {
        Some(Name::Again)
    } else if text == b"late".as_slice() {
        Some(Name::Late)
    } else if text == b"monitors".as_slice() {
        Some(Name::Monitors)
    } else if text == b"hears".as_slice() {
        Some(Name::Hears)
    } else {
        None
    }
}

/// The policy of this letter.
fn policy_of(text: &[u8]) -> Option<Policy>
    ensures { result ≡ spelled_policy text.now }
{
    if text == b"F".as_slice() {
        Some(Policy::FMatrix)
    } else if text == b"D".as_slice() {
        Some(Policy::Datacycle)
    } else if text == b"R".as_slice() {
        Some(Policy::RMatrix)
    } else {
        None
    }
}

/// The least and the greatest value of a setting.
fn range_of(name: Name) -> (u64, u64)
    ensures { result ≡ range_of name }
{
    match name {
        Name::Delta => (0, MOST_DELTA),
        Name::Version => (1, NEWEST_VERSION),
        Name::Group => (0, MOST_GROUP),
        Name::Cycles => (0, MOST_CYCLES),
        Name::Seed => (0, u64::MAX),
        Name::Loss | Name::Again | Name::Late => (0, MOST_SHARE),
        Name::Monitors => (0, MOST_MONITORS),
        Name::Hears => (1, MOST_HEARS),
    }
}

/// The setting of a name and a number, if the number is in its range.
fn number_set(name: Option<Name>, number: Option<u64>) -> Option<Setting>
    ensures { result ≡ number_set name number }
{
    let (Some(name), Some(number)) = (name, number) else {
        return None;
    };
    let (least, most) = range_of(name);
    if number < least || most < number {
        None
    } else {
        Some(Setting::Number(name, number))
    }
}

/// The setting that a name and a value spell.
pub fn read_setting(name: &[u8], value: &[u8]) -> Option<Setting>
    ensures { result ≡ setting_of name.now value.now }
{
    if name == b"policy".as_slice() {
        match policy_of(value) {
            Some(policy) => Some(Setting::Policy(policy)),
            None => None,
        }
    } else {
        number_set(name_of(name), read_u64(value))
    }
}

/// Whether two set the same thing.
fn is_same(a: Setting, b: Setting) -> bool
    ensures { result ≡ same_setting a b }
{
    match (a, b) {
        (Setting::Policy(_), Setting::Policy(_)) => true,
        (Setting::Number(a, _), Setting::Number(b, _)) => a == b,
        _ => false,
    }
}

/// Whether a setting is among those that were set.
pub fn is_set(setting: Setting, set: &[Setting]) -> bool
    ensures { result ≡ list_any (same_setting setting) set.now }
{
    set.iter().any(|other| is_same(setting, *other))
}

impl Draft {
    /// Adds the setting of a record.
    pub fn add_setting(&mut self, fields: &ByteRecord) -> Result<(), Refusal<FaultKind>>
        ensures { AddsDeclaration result (set_by (two_of (drop 1 (fields_of fields.now)))) self.old self.new }
    {
        let Some((name, value)) = two(fields) else {
            return Err(Refusal::Kind(FaultKind::Fields));
        };
        let Some(setting) = read_setting(name, value) else {
            return Err(Refusal::Kind(FaultKind::Setting));
        };
        if is_set(setting, &self.set) {
            return Err(Refusal::Kind(FaultKind::Setting));
        }
        self.set.push(setting)?;
        Ok(())
    }
}

/// The value of a setting that isn't set.
fn default_of(name: Name) -> u64
    ensures { result ≡ default_of name }
{
    match name {
        Name::Version => 1,
        Name::Cycles => DEFAULT_CYCLES,
        Name::Hears => DEFAULT_HEARS,
        _ => 0,
    }
}

/// What a setting says for a name.
fn number_said(name: Name, setting: Setting) -> Option<u64>
    ensures { result ≡ number_said name setting }
{
    match setting {
        Setting::Number(other, number) if is_same(Setting::Number(name, number), setting) => {
            Some(number)
        }
        _ => None,
    }
}

/// The number that a name is set to, or its default.
fn number_in(name: Name, set: &[Setting]) -> u64
    ensures { result ≡ number_in name set.now }
{
    for setting in set {
        if let Some(number) = number_said(name, *setting) {
            return number;
        }
    }
    default_of(name)
}

/// The policy that is set, or F-Matrix.
fn policy_in(set: &[Setting]) -> Policy
    ensures { result ≡ policy_in set.now }
{
    for setting in set {
        if let Setting::Policy(policy) = *setting {
            return policy;
        }
    }
    Policy::FMatrix
}

/// Whether a group is set with a policy that airs no columns.
pub fn groups_vectors(set: &[Setting]) -> bool
    ensures { result ≡ groups_vectors set.now }
{
    0 < number_in(Name::Group, set) && !matches!(policy_in(set), Policy::FMatrix)
}

/// All settings, if these were set.
pub fn settings_in(set: &[Setting]) -> Settings
    requires within { SettingsWithin (settings_in set.now) }
    requires version { number_in Name.Version set.now ≤ NEWEST_VERSION }
    ensures { result ≡ settings_in set.now }
{
    Settings {
        policy: policy_in(set),
        version: number_in(Name::Version, set) as u8,
        group: number_in(Name::Group, set) as u16,
        cycles: number_in(Name::Cycles, set) as u32,
        seed: number_in(Name::Seed, set),
        loss: number_in(Name::Loss, set) as u32,
        again: number_in(Name::Again, set) as u32,
        late: number_in(Name::Late, set) as u32,
        monitors: number_in(Name::Monitors, set) as u32,
        hears: number_in(Name::Hears, set) as u32,
    }
}

/// The most items of a deck with these settings: those of its version.
pub fn most_items(set: &[Setting]) -> usize
    ensures { result ≡ most_count (number_in Name.Version set.now) }
{
    if number_in(Name::Version, set) < NEWEST_VERSION {
        MOST_FULL_ITEMS
    } else {
        MOST_ITEMS
    }
}

/// How much the frequencies of disks that give none differ.
pub fn delta_in(set: &[Setting]) -> u32
    requires { number_in Name.Delta set.now ≤ MOST_DELTA }
    ensures { result ≡ number_in Name.Delta set.now }
{
    number_in(Name::Delta, set) as u32
}
