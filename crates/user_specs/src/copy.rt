//! Equal copies of users.

ghost use Rattle.std.specs.Prelude.{◌≡◌, map, IfOk};
ghost use Rattle.user_specs.specs.Plain.{spec_of};

use crate::spec::Spec;
use ft_base::NoMemory;
use std::alloc::Global;

/// Equal users. The error says that memory ran out.
pub fn copy_specs(alloc: Global, specs: &[Spec]) -> Result<Vec<Spec>, NoMemory>
    ensures { IfOk result (λ v. map spec_of v.items ≡ map spec_of specs.now) }
{
    let mut copies = Vec::new(alloc);
    for spec in specs {
        let copy = copy_spec(alloc, spec)?;
        copies.push(copy).map_err(|_| NoMemory)?;
    }
    Ok(copies)
}

/// An equal user.
fn copy_spec(alloc: Global, spec: &Spec) -> Result<Spec, NoMemory>
    ensures { IfOk result (λ s. spec_of s ≡ spec_of spec.now) }
{
    Ok(Spec {
        name: String::from_str(alloc, spec.name.as_str()).map_err(|_| NoMemory)?,
        kind: spec.kind,
        regs: spec.regs,
        ipmodify: spec.ipmodify,
        pid: spec.pid,
        act: spec.act,
    })
}
