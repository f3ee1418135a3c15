//! What the lists and their mask mean, for readers and for the layers above. Each law is a function
//! whose clause says it.

ghost use Rattle.std.specs.Prelude.{◌≡◌, ℕ, ◌<◌, ◌≤◌, true, false, length};
ghost use Rattle.ft_base.specs.Desk.{Desk, is_allowed};
ghost use Rattle.ft_base.specs.Marks.{holds, is_empty};
ghost use Rattle.pid_filter.specs.Lists.{PidLists, allows};

use crate::pids::{Pids, allowed};
use ft_base::TaskNo;
use ft_base::limits::TASKS;

/// A task is allowed by the mask exactly if it is allowed by the lists. A task that there isn't is
/// not allowed.
pub fn mask_is_exact(pids: &Pids, task: TaskNo) -> bool
    requires { task.0 < TASKS }
    ensures task { task.0 < length pids.now.pids → result ≡ allows pids.now task.0 }
    ensures no_task { length pids.now.pids ≤ task.0 → result ≡ false }
{
    allowed(pids.mask(), task)
}

/// On each desk that has the two lists, the tasks that they allow are allowed.
pub fn allows_as_on_a_desk()
    ensures { (desk : Desk) (t : ℕ) → allows (record { pids = desk.pids; nopids = desk.nopids }) t
        ≡ is_allowed desk t }
{}

/// A task on the nopid list is not allowed, whether the pid list has it or not.
pub fn nopid_wins()
    ensures { (lists : PidLists) (t : ℕ) → holds lists.nopids t ≡ true → allows lists t ≡ false }
{}

/// A task that isn't on the nopid list is allowed if the pid list is empty, or if it has the task.
pub fn others_are_allowed()
    ensures none_listed { (lists : PidLists) (t : ℕ) → holds lists.nopids t ≡ false
        → is_empty lists.pids ≡ true → allows lists t ≡ true }
    ensures listed { (lists : PidLists) (t : ℕ) → holds lists.nopids t ≡ false
        → holds lists.pids t ≡ true → allows lists t ≡ true }
{}

/// If the pid list is not empty, a task that isn't on it is not allowed.
pub fn listed_alone()
    ensures { (lists : PidLists) (t : ℕ) → is_empty lists.pids ≡ false
        → holds lists.pids t ≡ false → allows lists t ≡ false }
{}
