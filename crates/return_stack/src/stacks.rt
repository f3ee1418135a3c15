//! The stack of return addresses, with the shadow stack beside it.

ghost use Rattle.std.specs.Prelude.{◌≡◌, ◌<◌, ◌≤◌, ◌^◌, ◌∷◌, [], length, drop, slice_get, IfOk, OnOk, OnErr, IsSomeAnd, is_err};
ghost use Rattle.std.specs.Option.{option_and_then};
ghost use Rattle.return_stack.specs.Calls.{top_users, has_frame, caller_of, address_of, up_to, frames_in, is_full, with_call, with_hook, with_user, without_empty};

use crate::shadow::{FrameUser, ShadowStack};
use ft_base::limits::{FRAMES, USERS};
use ft_base::{CallNo, NoMemory, UserNo};
use std::alloc::Global;
use std::marker::Model;

/// The return address of a call, as it is on the task's stack.
#[derive(Clone, Copy, PartialEq, Eq)]
pub enum Address {
    /// The hook, which looks up the true address in the call's frame.
    Hook,
    /// The call that it returns to, or none for the outermost call.
    To(Option<CallNo>),
}

/// The shadow stack has no room for one more frame.
#[derive(Clone, Copy, Debug, PartialEq, Eq)]
pub struct Full;

/// The stacks of a task. Contracts see its open calls, the latest first, each with the users of its
/// frame if it has one, and how many calls and frames there can be.
#[derive(Drop)]
pub struct Stacks {
    /// The latest call. What the others are is told by the return addresses alone.
    running: Option<CallNo>,
    /// The return address of each open call, the outermost first.
    addresses: Vec<Address>,
    shadow: ShadowStack,
    call_limit: u32,
}

impl Model for Stacks {
    ghost use Rattle.return_stack.specs.Calls.{CallStack};

    ghost Value = { CallStack };

    ghost use Rattle.return_stack.specs.CallStackInvariant.{stack_of, CallStackInvariant};

    ghost view = { stack_of };

    ghost invariant = { CallStackInvariant };
}

impl Stacks {
    /// No open call, and room for this many calls and frames, each frame with all the users that it
    /// can have.
    pub fn new(alloc: Global, calls: u32, frames: u32) -> Result<Stacks, NoMemory>
        requires { frames ≤ FRAMES }
        ensures { IfOk result (λ s. s ≡ record { calls = []; call_limit = calls; frame_limit = frames }) }
    {
        let addresses = Vec::with_capacity(alloc, calls as usize).map_err(|_| NoMemory)?;
        let shadow = ShadowStack::new(alloc, frames)?;
        Ok(Stacks {
            running: None,
            addresses,
            shadow,
            call_limit: calls,
        })
    }

    /// How many calls are open.
    pub fn calls(&self) -> u32
        ensures { result ≡ length self.now.calls }
    {
        self.addresses.len() as u32
    }

    /// The task makes a call, which will return to the call that was the latest.
    pub fn push_call(&mut self, call: CallNo)
        requires { length self.old.calls < self.old.call_limit }
        ensures { self.new ≡ record self.old { calls = with_call self.old.calls call } }
    {
        self.addresses.push_reserved(Address::To(self.running));
        self.running = Some(call);
    }

    /// Gives the top call a frame if it has none: the hook replaces its return address. `Full`
    /// exactly if it has none and all frames are in use; then nothing changes.
    pub fn hook(&mut self) -> Result<(), Full>
        requires { 0 < length self.old.calls }
        ensures hooked { OnOk result (self.new ≡ record self.old { calls = with_hook self.old.calls }) }
        ensures full { is_err result ≡ is_full self.old }
        ensures unchanged { OnErr result (self.new ≡ self.old) }
    {
        let top = self.addresses.len() - 1;
        let Address::To(to) = self.addresses[top] else {
            return Ok(());
        };
        if self.shadow.is_full() {
            return Err(Full);
        }
        self.shadow.push(to);
        self.addresses[top] = Address::Hook;
        Ok(())
    }

    /// Adds a user to the top call's frame: its registration, and the place of its entry callback.
    pub fn add_user(&mut self, user: UserNo, reg: u32, entry: u32)
        requires { IsSomeAnd (top_users self.old.calls) (λ users. length users < USERS) }
        ensures { self.new ≡ record self.old { calls = with_user self.old.calls (record { user = user; reg = reg; entry = entry }) } }
    {
        self.shadow.add_user(FrameUser { user, reg, entry });
    }

    /// Takes the top call's frame away if it has no users, and puts the return address back.
    pub fn drop_empty(&mut self)
        requires { 0 < length self.old.calls }
        ensures { self.new ≡ record self.old { calls = without_empty self.old.calls } }
    {
        if self.has_frame() && self.shadow.has_no_users() {
            let top = self.addresses.len() - 1;
            self.addresses[top] = Address::To(self.shadow.pop());
        }
    }

    /// How many frames the calls below the top one have.
    pub fn others(&self) -> u32
        requires { 0 < length self.now.calls }
        ensures frames { result ≡ frames_in (drop 1 self.now.calls) }
        ensures within { result ≤ self.now.frame_limit }
    {
        self.shadow.len() - u32::from(self.has_frame())
    }

    /// A user of the top call's frame, the first one at 0. `None` exactly if there is none.
    pub fn frame_user(&self, i: u32) -> Option<FrameUser>
        requires { 0 < length self.now.calls }
        ensures { result ≡ option_and_then (λ users. slice_get users i) (top_users self.now.calls) }
    {
        if self.has_frame() {
            self.shadow.user(i)
        } else {
            None
        }
    }

    /// The top call returns: it is taken away with its frame. The answer is its true caller, and
    /// `None` exactly if it is the outermost call.
    pub fn pop_return(&mut self) -> Option<CallNo>
        requires { 0 < length self.old.calls }
        ensures caller { result ≡ caller_of self.old.calls }
        ensures popped { self.new ≡ record self.old { calls = drop 1 self.old.calls } }
    {
        let address = self.addresses.pop()?;
        self.running = match address {
            Address::To(to) => to,
            Address::Hook => self.shadow.pop(),
        };
        self.running
    }

    /// The return address of an open call, the outermost one at 0: the hook exactly if that call
    /// has a frame, and otherwise its true caller.
    pub fn address(&self, i: u32) -> Address
        requires { i < length self.now.calls }
        ensures { result ≡ address_of (up_to self.now.calls i) }
    {
        self.addresses[i as usize]
    }

    /// Whether the top call has a frame.
    fn has_frame(&self) -> bool
        requires { 0 < length self.now.calls }
        ensures { result ≡ has_frame self.now.calls }
    {
        self.address(self.calls() - 1) == Address::Hook
    }
}
