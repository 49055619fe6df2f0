//! The mapper's host alone, from which classes begin.

ghost use Rattle.std.specs.Prelude.{◌≡◌, IfOk};
ghost use Rattle.replicate_merge.specs.AtOnce.{IsHostAlone};

use crate::{Joined, Way};
use std::alloc::{AllocError, Global};

/// The mapper's host, with its way, as the one class.
pub(crate) fn lone_host(alloc: Global, host: u16) -> Result<Joined, AllocError>
    ensures { IfOk result (λ t. IsHostAlone host t) }
{
    let mut joined = Joined::new(alloc);
    joined.reserve(1)?;
    joined.add_node(false);
    joined.add_way(&Way::Host {
        address: host,
        node: 0,
    });
    Ok(joined)
}
