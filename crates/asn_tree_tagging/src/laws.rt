//! Laws of tagging environments, each the contract of a function without a body.

ghost use Rattle.asn_tree_tagging.specs.Laws.{EnvironmentsAddUp};

/// Tagging environments add up: the sums may be taken in any order, and Automatic adds nothing on either side.
pub fn environments_add_up()
    ensures { EnvironmentsAddUp }
{}
