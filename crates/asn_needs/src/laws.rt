//! Laws of needs and faults, each the contract of a function without a body.

ghost use Rattle.asn_needs.specs.Laws.{HeightExists, HeightMeansNoCycle, OneFault};

/// A definition or class's field from which no cycle is needed has a height in the order of needs, at most the number of
/// definitions and fields of classes.
pub fn height_exists()
    ensures { HeightExists }
{}

/// What has a height in the order of needs needs no cycle.
pub fn height_means_no_cycle()
    ensures { HeightMeansNoCycle }
{}

/// A definition or class's field has at most one fault.
pub fn one_fault()
    ensures { OneFault }
{}
