//! The shadow stack: the return addresses that the hook has replaced, with the users whose exits
//! are owed (`ftrace.rst`, function graph tracer).

ghost use Rattle.std.specs.Prelude.{◌≡◌, ◌<◌, ◌≤◌, ◌∷◌, [], ◌==◌, length, IfOk, slice_get, drop, reverse};
ghost use Rattle.std.specs.Bool.{OnFalse};
ghost use Rattle.return_stack.specs.Shadow.{users_on, to_on, with_frame, with_user_on};
ghost use Rattle.return_stack.specs.Frames.{first_user_on};

use ft_base::limits::{FRAMES, USERS};
use ft_base::{CallNo, NoMemory, UserNo};
use std::alloc::Global;
use std::marker::Model;

/// A user whose exit a call's frame owes.
#[derive(Clone, Copy, PartialEq, Eq)]
pub struct FrameUser {
    pub user: UserNo,
    /// The number of the registration under which it was called back at the entry.
    pub reg: u32,
    /// The place of that callback in the history.
    pub entry: u32,
}

/// A frame, without its users.
#[derive(Clone, Copy)]
struct Frame {
    /// The return address that the hook has replaced.
    to: Option<CallNo>,
    /// The place of its first user among the users of all frames.
    first_user: usize,
}

/// The frames of a task. Contracts see them with their users, the latest frame first, and how many
/// there can be.
#[derive(Drop)]
pub(crate) struct ShadowStack {
    /// The frames, the earliest first.
    frames: Vec<Frame>,
    /// The users of all frames, those of the earliest frame first.
    users: Vec<FrameUser>,
    limit: u32,
}

impl Model for ShadowStack {
    ghost use Rattle.return_stack.specs.Shadow.{Shadow};

    ghost Value = { Shadow };

    ghost use Rattle.return_stack.specs.ShadowInvariant.{shadow_of, ShadowInvariant};

    ghost view = { shadow_of };

    ghost invariant = { ShadowInvariant };
}

impl ShadowStack {
    /// No frame, and room for this many.
    pub(crate) fn new(alloc: Global, limit: u32) -> Result<ShadowStack, NoMemory>
        requires { limit ≤ FRAMES }
        ensures frames { IfOk result (λ s. s.frames ≡ []) }
        ensures limit { IfOk result (λ s. s.limit ≡ limit) }
    {
        let room = limit as usize;
        let frames = Vec::with_capacity(alloc, room).map_err(|_| NoMemory)?;
        let users = Vec::with_capacity(alloc, room * USERS as usize).map_err(|_| NoMemory)?;
        Ok(ShadowStack {
            frames,
            users,
            limit,
        })
    }

    /// How many frames there are.
    pub(crate) fn len(&self) -> u32
        ensures frames { result ≡ length self.now.frames }
        ensures within { result ≤ self.now.limit }
    {
        self.frames.len() as u32
    }

    /// Whether there is no room for one more frame.
    pub(crate) fn is_full(&self) -> bool
        ensures full { result ≡ (length self.now.frames == self.now.limit) }
        ensures room { OnFalse result (length self.now.frames < self.now.limit) }
    {
        self.frames.len() == self.limit as usize
    }

    /// Adds a frame without users.
    pub(crate) fn push(&mut self, to: Option<CallNo>)
        requires { length self.old.frames < self.old.limit }
        ensures { self.new ≡ with_frame self.old to }
    {
        let first_user = self.users.len();
        self.frames.push_reserved(Frame { to, first_user });
    }

    /// Takes the latest frame away, and gives the address that it has kept.
    pub(crate) fn pop(&mut self) -> Option<CallNo>
        requires { 0 < length self.old.frames }
        ensures to { result ≡ to_on self.old.frames }
        ensures frames { self.new.frames ≡ drop 1 self.old.frames }
        ensures limit { self.new.limit ≡ self.old.limit }
    {
        let frame = self.frames.pop()?;
        self.users.truncate(frame.first_user);
        frame.to
    }

    /// Adds a user to the latest frame.
    pub(crate) fn add_user(&mut self, user: FrameUser)
        requires frame { 0 < length self.old.frames }
        requires room { length (users_on self.old.frames) < USERS }
        ensures { self.new ≡ with_user_on self.old user }
    {
        self.users.push_reserved(user);
    }

    /// A user of the latest frame, the first one at 0.
    pub(crate) fn user(&self, i: u32) -> Option<FrameUser>
        requires { 0 < length self.now.frames }
        ensures { result ≡ slice_get (users_on self.now.frames) i }
    {
        let first = first_user(self.frames.as_slice());
        self.users.get(first + i as usize).copied()
    }

    /// Whether the latest frame has no users.
    pub(crate) fn has_no_users(&self) -> bool
        requires { 0 < length self.now.frames }
        ensures { result ≡ (length (users_on self.now.frames) == 0) }
    {
        self.users.len() == first_user(self.frames.as_slice())
    }
}

/// The place of the first user of the latest frame.
fn first_user(frames: &[Frame]) -> usize
    requires { 0 < length frames.now }
    ensures { result ≡ first_user_on (reverse frames.now) }
{
    frames[frames.len() - 1].first_user
}
