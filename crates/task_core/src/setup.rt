//! What a CPU and its tasks look up, and never change.

ghost use Rattle.std.specs.Prelude.{◌≡◌, ◌<◌, length, map, IfOk};
ghost use Rattle.ft_base.specs.Versions.{has_looks};
ghost use Rattle.user_specs.specs.Plain.{spec_of};
ghost use Rattle.task_core.specs.Setups.{asks, declared_in};

use ft_base::limits::has_looks;
use ft_base::{NoMemory, UserNo};
use std::alloc::Global;
use std::marker::Model;
use user_specs::{Spec, copy_specs};
use word_map::WordMap;

/// The places of the words, and what the script declares for all tasks. Contracts see the shape of
/// the words, the users, how many frames each task's shadow stack has, and whether the version has looks.
#[derive(Drop)]
pub struct Setup {
    pub(crate) map: WordMap,
    users: Vec<Spec>,
    pub(crate) frames: u32,
    /// Whether CPUs look for requests, and plain users aren't asked. The version is looked at once.
    looks: bool,
}

impl Model for Setup {
    ghost use Rattle.task_core.specs.Setups.{PlainSetup};

    ghost Value = { PlainSetup };

    ghost use Rattle.task_core.specs.SetupFields.{setup_of};

    ghost view = { setup_of };
}

impl Setup {
    /// The setup of a script of this version that declares these users. The error says that memory ran
    /// out.
    pub fn new(
        alloc: Global,
        specs: &[Spec],
        frames: u32,
        version: u8,
        words: WordMap,
    ) -> Result<Setup, NoMemory>
        ensures { IfOk result (λ s. s ≡ record { shape = words; users = map spec_of specs.now; frames = frames; looks = has_looks version }) }
    {
        Ok(Setup {
            map: words,
            users: copy_specs(alloc, specs)?,
            frames,
            looks: has_looks(version),
        })
    }

    /// The places of the words.
    pub fn map(&self) -> &WordMap
        ensures { result.now ≡ self.now.shape }
    {
        &self.map
    }

    /// Whether CPUs answer requests before the steps of their tasks.
    pub fn takes_looks(&self) -> bool
        ensures { result ≡ self.now.looks }
    {
        self.looks
    }

    /// Whether a user is asked whether it is on. A graph user always is: its place holds a stub before
    /// its sites are patched, and a callback would come before its registration. So is an fprobe, whose
    /// handler looks at a flag: `disable` tells nobody else.
    pub(crate) fn is_asked(&self, user: UserNo) -> bool
        requires { user.0 < length self.now.users }
        ensures { result ≡ asks self.now user.0 }
    {
        !(self.looks && self.user(user).kind.is_function())
    }

    /// What the script declares of a user.
    pub(crate) fn user(&self, user: UserNo) -> &Spec
        requires { user.0 < length self.now.users }
        ensures { spec_of result.now ≡ declared_in self.now user.0 }
    {
        &self.users[user.0 as usize]
    }
}
