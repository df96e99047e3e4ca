//! What an instance promises.

ghost use Rattle.asn_link_passes.specs.Promises.{InstancesPromise};

use asn_link_instance::{instances_are_plain, literals_kept, literals_plain, substitution};

/// An instance keeps what the type means in its scope, and is in plain form.
pub(crate) fn instances_promise()
    ensures { InstancesPromise }
{
    substitution();
    literals_kept();
    literals_plain();
    instances_are_plain();
}
