//! The settings of the properties of the time types.
//!
//! It stands on asn_memory and asn_tree_equality. The trees hold settings as part of a constraint; the grammar's guards on the
//! texts of settings cite the definitions of this room.
#![tactic(auto)]

mod equality;
mod settings;

pub use equality::equal_settings;
pub use settings::texts::starts_with_digit;
pub use settings::{
    BasicSettings, DateSettings, IntervalTypeSettings, LocalOrUtcSettings, MidnightSettings,
    PropertyAndSettingsPair, PropertySetting, PropertySettings, RecurrenceSettings, SettingError,
    StartEndPointSettings, TimeSettings, YearSettings,
};
