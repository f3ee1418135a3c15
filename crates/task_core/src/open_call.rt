//! The open calls of a task.

ghost use Rattle.std.specs.Prelude.{◌≡◌, ◌<◌, ◌∷◌, [], drop, length, IfOk};
ghost use Rattle.task_core.specs.Opens.{latest, latest_ctx, top_of};

use ft_base::{CallNo, Ctx, FuncNo, NoMemory, Ran, UserNo};
use ops_list::Walker;
use std::alloc::Global;
use std::marker::Model;

/// A call that is open. Its frame, if it has one, is on the task's shadow stack.
#[derive(Clone, Copy)]
pub(crate) struct OpenCall {
    pub(crate) call: CallNo,
    pub(crate) ctx: Ctx,
    pub(crate) func: FuncNo,
    /// Whether the script made the call. Otherwise a user's act did.
    pub(crate) scripted: bool,
    /// What was fetched; the nop until then.
    pub(crate) ran: Ran,
    /// The function whose body is to run: the called one, unless a user that was called back
    /// replaces it.
    pub(crate) runs: FuncNo,
    /// The call's walk of the list. Each call has its own: the act of a user that is called back may
    /// make another call, whose walk comes between two steps of this one.
    pub(crate) walk: Walker,
    /// The user whose act made the call above this one. It means nothing if none did.
    pub(crate) user: UserNo,
}

/// The open calls of a task. Contracts see them with the latest first, and how many there can be.
#[derive(Drop)]
pub(crate) struct OpenCalls {
    /// The outermost first.
    calls: Vec<OpenCall>,
    limit: u32,
}

impl Model for OpenCalls {
    ghost use Rattle.task_core.specs.Opens.{Opens};

    ghost Value = { Opens };

    ghost use Rattle.task_core.specs.OpenCallsInvariant.{opens_of, OpenCallsInvariant};

    ghost view = { opens_of };

    ghost invariant = { OpenCallsInvariant };
}

impl OpenCalls {
    /// No open call, and room for this many. The error says that memory ran out.
    pub(crate) fn new(alloc: Global, limit: u32) -> Result<OpenCalls, NoMemory>
        ensures { IfOk result (λ o. o ≡ record { calls = []; limit = limit }) }
    {
        let calls = Vec::with_capacity(alloc, limit as usize).map_err(|_| NoMemory)?;
        Ok(OpenCalls { calls, limit })
    }

    /// The latest call.
    pub(crate) fn top(&self) -> &OpenCall
        requires { 0 < length self.now.calls }
        ensures { result.now ≡ top_of self.now.calls }
    {
        &self.calls[self.calls.len() - 1]
    }

    /// The number of the latest call, if one is open.
    pub(crate) fn latest(&self) -> Option<CallNo>
        ensures { result ≡ latest self.now.calls }
    {
        let top = self.calls.last()?;
        Some(top.call)
    }

    /// The context of the latest call, if one is open.
    pub(crate) fn latest_ctx(&self) -> Option<Ctx>
        ensures { result ≡ latest_ctx self.now.calls }
    {
        let top = self.calls.last()?;
        Some(top.ctx)
    }

    /// Puts this call in the place of the latest.
    pub(crate) fn set_top(&mut self, call: OpenCall)
        requires { 0 < length self.old.calls }
        ensures { self.new ≡ record self.old { calls = call ∷ drop 1 self.old.calls } }
    {
        let top = self.calls.len() - 1;
        self.calls[top] = call;
    }

    /// One more call is open.
    pub(crate) fn push(&mut self, call: OpenCall)
        requires { length self.old.calls < self.old.limit }
        ensures { self.new ≡ record self.old { calls = call ∷ self.old.calls } }
    {
        self.calls.push_reserved(call);
    }

    /// The latest call returns.
    pub(crate) fn pop(&mut self)
        requires { 0 < length self.old.calls }
        ensures { self.new ≡ record self.old { calls = drop 1 self.old.calls } }
    {
        self.calls.truncate(self.calls.len() - 1);
    }
}
