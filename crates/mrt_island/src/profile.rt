//! A profile.

ghost use Rattle.std.specs.Prelude.{◌≡◌, ◌++◌, ◌∷◌, [], not, true, IfOk};
ghost use Rattle.std.specs.List.{list_any};
ghost use Rattle.mrt_island.specs.steps.ProfileStore.{parts_of};
ghost use Rattle.mrt_island.specs.Settings.{is_eligible, priority_of, same_subject, supports};

use crate::setting::{Setting, Subject};
use indexmap::IndexMap;
use lsdb::FileKey;
use mrt_graph::NoMemory;
use std::alloc::Global;
use std::marker::Model;

/// What is set apart from the defaults for the routers of an area. Contracts see it as the list of what the lines of its file say.
pub struct Profile {
    /// Each setting by its subject, with the priority where the subject is one. Most profiles have none, and keys that are
    /// made for all routers and links only to find nothing would cost more than the island.
    settings: IndexMap<Subject, u8, FileKey>,
}

impl Drop for Profile {
    fn drop(self) {
        let Self { settings: _ } = self;
    }
}

impl Model for Profile {
    ghost use Rattle.std.specs.Prelude.{List};
    ghost use Rattle.mrt_island.specs.declared.setting.Setting.{Setting};
    ghost use Rattle.mrt_island.specs.steps.ProfileStore.{settings_kept};

    ghost Value = { List Setting };

    ghost view = { λ profile. settings_kept profile.settings.entries };
}

/// The priority of a router for which the profile gives none (RFC 7812, section 8).
const DEFAULT_PRIORITY: u8 = 128;

impl Profile {
    /// The profile of an empty file.
    pub fn empty(alloc: Global) -> Profile
        ensures { result ≡ [] }
    {
        Profile::keyed(alloc, FileKey::of(b""))
    }

    /// A profile without settings, for those of the file that gives this key.
    pub(crate) fn keyed(alloc: Global, file: FileKey) -> Profile
        ensures { result ≡ [] }
    {
        Profile {
            settings: IndexMap::with_hasher(alloc, file),
        }
    }

    /// The router's GADAG root selection priority, 128 where none is given: of an island the router with the least one is
    /// the root, and among equals the one with the highest router ID.
    pub fn priority(&self, router: u32) -> u8
        ensures { result ≡ priority_of self.now router }
    {
        if self.settings.is_empty() {
            return DEFAULT_PRIORITY;
        }
        match self.settings.get(&Subject::Priority { router }) {
            None => DEFAULT_PRIORITY,
            Some(priority) => *priority,
        }
    }

    /// Whether the router supports the Default MRT Profile.
    pub fn supports(&self, router: u32) -> bool
        ensures { result ≡ supports self.now router }
    {
        if self.settings.is_empty() {
            return true;
        }
        !self.settings.contains_key(&Subject::NoMrt { router })
    }

    /// Whether the router's links with this link data may be part of an island.
    pub fn eligible(&self, router: u32, link_data: u32) -> bool
        ensures { result ≡ is_eligible self.now router link_data }
    {
        if self.settings.is_empty() {
            return true;
        }
        !self
            .settings
            .contains_key(&Subject::Ineligible { router, link_data })
    }

    /// Takes in a setting, and tells whether its subject is new; then it stands at the end. Where it is not, its value takes
    /// the place of the one that was there, and the profile is to be given up.
    pub(crate) fn add(&mut self, setting: Setting) -> Result<bool, NoMemory>
        ensures told { IfOk result (λ is_new. is_new ≡ not (list_any (same_subject setting) self.old)) }
        ensures added { IfOk result (λ is_new. is_new ≡ true → self.new ≡ self.old ++ setting ∷ []) }
    {
        let (subject, priority) = parts_of(setting);
        let old = self.settings.insert(subject, priority)?;
        Ok(old.is_none())
    }
}

/// A setting's subject, and the priority that it gives, if that is its subject.
fn parts_of(setting: Setting) -> (Subject, u8)
    ensures { result ≡ parts_of setting }
{
    match setting {
        Setting::Priority { router, priority } => (Subject::Priority { router }, priority),
        Setting::NoMrt { router } => (Subject::NoMrt { router }, 0),
        Setting::Ineligible { router, link_data } => (Subject::Ineligible { router, link_data }, 0),
    }
}
