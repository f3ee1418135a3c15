//! Control alone, and the user that it has.

mod controls;

use ft_base::Kind;
use std::alloc::{AllocError, Global};
use user_specs::Spec;

/// The one user of a machine.
fn user(alloc: Global, kind: Kind) -> Result<Spec, AllocError> {
    let name = String::from_str(alloc, "tracer")?;
    Ok(Spec {
        name,
        kind,
        regs: false,
        ipmodify: None,
        pid: false,
        act: None,
    })
}
