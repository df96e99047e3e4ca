//! Equality of settings.

ghost use Rattle.asn_tree_equality.specs.Equality.{same_by, same_by-laws, IsEquality};
ghost use Rattle.std.specs.Prelude.{◌≡◌, ◌↔◌, IsTrue};

use crate::settings::{
    BasicSettings, DateSettings, IntervalTypeSettings, LocalOrUtcSettings, MidnightSettings,
    PropertyAndSettingsPair, PropertySettings, RecurrenceSettings, SettingError,
    StartEndPointSettings, TimeSettings, YearSettings,
};
use asn_tree_equality::{SameTree, same};

impl SameTree for PropertyAndSettingsPair {
    fn is_same(&self, other: &Self) -> bool {
        self == other
    }
}

impl SameTree for PropertySettings {
    fn is_same(&self, other: &Self) -> bool {
        self.property_settings_list
            .is_same(&other.property_settings_list)
    }
}

impl PartialEq for PropertySettings {
    ghost use Rattle.asn_tree_settings.specs.contracts.settings.PropertySettings.{the_row};

    ghost eq = { same_by the_row.coded };

    ghost laws = { same_by-laws the_row.coded };

    fn eq(&self, other: &Self) -> bool
        ensures equal { IsTrue result ↔ (self.now ≡ other.now) }
        ensures gives { result ≡ same_by the_row.coded self.now other.now }
    {
        same(self, other)
    }
}

/// The law of `==` of settings: each is true exactly where both are equal.
pub fn equal_settings()
    ensures basic { IsEquality ⟦<BasicSettings as PartialEq>⟧.eq }
    ensures date { IsEquality ⟦<DateSettings as PartialEq>⟧.eq }
    ensures year { IsEquality ⟦<YearSettings as PartialEq>⟧.eq }
    ensures time { IsEquality ⟦<TimeSettings as PartialEq>⟧.eq }
    ensures local_or_utc { IsEquality ⟦<LocalOrUtcSettings as PartialEq>⟧.eq }
    ensures interval_type { IsEquality ⟦<IntervalTypeSettings as PartialEq>⟧.eq }
    ensures start_end_point { IsEquality ⟦<StartEndPointSettings as PartialEq>⟧.eq }
    ensures recurrence { IsEquality ⟦<RecurrenceSettings as PartialEq>⟧.eq }
    ensures midnight { IsEquality ⟦<MidnightSettings as PartialEq>⟧.eq }
    ensures error { IsEquality ⟦<SettingError as PartialEq>⟧.eq }
    ensures pair { IsEquality ⟦<PropertyAndSettingsPair as PartialEq>⟧.eq }
{}
