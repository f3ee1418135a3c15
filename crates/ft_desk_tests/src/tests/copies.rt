//! A copy of a line of control.

use super::bench::set_of;
use ft_base::UserNo;
use ft_desk::{Command, Ctl};
use site_set::Edit;
use std::alloc::Global;
use std::process::Abort;
use std::test::Fail;

/// An edit of the filter of user 2.
fn line(rt: &impl Abort, alloc: Global) -> Result<Ctl, Fail> {
    let set = set_of(rt, alloc, 3, 0b101)?;
    let edit = Edit {
        append: true,
        remove: true,
        clear: false,
        set,
    };
    Ok(Ctl::Run(Command::Filter(UserNo(2), edit)))
}

/// Whether it is that edit.
fn is_line(line: &Ctl) -> bool {
    match line {
        Ctl::Run(Command::Filter(user, edit)) => {
            user.0 == 2 && edit.append && edit.remove && !edit.clear && edit.set.count() == 2
        }
        _ => false,
    }
}

/// Whether a copy of a line is that edit.
fn is_copied(line: &Ctl) -> Result<bool, Fail> {
    let copy = line.copy()?;
    Ok(is_line(&copy))
}

#[test]
fn copies_lines(rt: HostRuntime) -> Result<(), Fail> {
    let line = line(&rt, rt.alloc())?;
    assert!(rt; is_copied(&line)?);
    Ok(())
}
