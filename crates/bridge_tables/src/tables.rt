//! The tables themselves, and what they tell.
ghost use Rattle.std.specs.Prelude.{◌≡◌, if◌then◌else◌, IfOk, IfSome, IfNone, None, Some, length, map, replicate};
ghost use Rattle.bridge_model.specs.Answers.{proxies};
ghost use Rattle.bridge_model.specs.Objects.{object_numbered};
ghost use Rattle.bridge_model.specs.Settings as plain;
ghost use Rattle.bridge_model.specs.Sides.{idle};
ghost use Rattle.bridge_objects.specs.Kept.{behaviour_of, fields_of};
ghost use Rattle.bridge_setting.specs.Settings.{setting_of};
ghost use Rattle.uno_values.specs.Values.{plain_of};
ghost use Rattle.bridge_tables.specs.EndTables.{IsOf, opening_tables};
ghost use Rattle.bridge_tables.specs.Roots.{root_of};

use crate::Root;
use bridge_objects::Objects;
use bridge_setting::{Setting, first_objects};
use bridge_streams::Unsaid;
use proxy_table::ProxyTable;
use std::alloc::Global;
use std::marker::Model;
use uno_base::NoMemory;
use uno_values::Value;

/// What messages and frames change. While the bridge stands each pair of the peer's that is held has a proxy, with the release that is owed
/// once nobody holds it any more, and room for that release among the messages that are said.
#[derive(Drop)]
pub struct Tables {
    pub(crate) alloc: Global,
    pub(crate) objects: Objects,
    pub(crate) proxies: ProxyTable,
    pub(crate) unsaid: Unsaid,
    pub(crate) roots: Vec<Root>,
    pub(crate) frames_made: u64,
    pub(crate) stands: bool,
}

impl Model for Tables {
    ghost use Rattle.std.specs.Coded.{codes};
    ghost use Rattle.std.specs.Prelude.{◌≡◌, true, map};
    ghost use Rattle.call_stacks.specs.ValueCodes.{value_code};
    ghost use Rattle.uno_model.specs.Codes.{kind_code};
    ghost use Rattle.bridge_tables.specs.EndTables.{EndTables};
    ghost use Rattle.bridge_tables.specs.Covered.{AreCovered};
    ghost use Rattle.bridge_tables.specs.Roots.{root_of};

    ghost Value = { EndTables };

    ghost coded = { Prim.hlevel (codes, kind_code, value_code) };

    ghost view = { λ t. record { prefix = t.objects.prefix; first = t.objects.first; release_tid = t.unsaid.tid; stands = t.stands; tables = record { objects = t.objects.objects; objects_made = t.objects.objects_made; frames_made = t.frames_made; holdings = t.objects.holdings; stubs = t.objects.stubs; roots = map root_of t.roots.items; unsaid = t.unsaid.said } } };

    ghost invariant = { λ t. t.stands ≡ true → AreCovered t.objects.prefix t.objects.holdings t.proxies t.unsaid.kept };
}

impl Tables {
    /// No objects, and idle roots.
    pub fn new(alloc: Global, setting: &Setting) -> Result<Tables, NoMemory>
        ensures { IfOk result (λ tables. tables ≡ opening_tables (setting_of setting.now)) }
    {
        let tid = setting.release_tid().copy()?;
        let Ok(roots) = idle_roots(alloc, setting.plan.threads.len()) else {
            drop(tid);
            return Err(NoMemory);
        };
        let first = first_objects(&setting.plan);
        let Ok(objects) = Objects::new(alloc, setting.names.tag(), first) else {
            drop(roots);
            drop(tid);
            return Err(NoMemory);
        };
        Ok(Tables {
            alloc,
            objects,
            proxies: ProxyTable::new(alloc),
            unsaid: Unsaid::new(alloc, tid),
            roots,
            frames_made: 0,
            stands: true,
        })
    }

    /// The behaviour and the fields of an object.
    pub fn object(&self, number: u32) -> Option<(u32, &[Value])>
        ensures found { IfSome result (λ r. behaviour_of (object_numbered number self.now.tables.objects) ≡ Some r.0) }
        ensures fields { IfSome result (λ r. fields_of (object_numbered number self.now.tables.objects) ≡ Some (map plain_of r.1.now)) }
        ensures none { IfNone result (object_numbered number self.now.tables.objects ≡ None) }
    {
        self.objects.object(number)
    }

    /// How many frames began.
    pub fn frames_made(&self) -> u64
        ensures { result ≡ self.now.tables.frames_made }
    {
        self.frames_made
    }

    /// How many objects were made.
    pub fn objects_made(&self) -> u32
        ensures { result ≡ self.now.tables.objects_made }
    {
        self.objects.objects_made()
    }

    /// How many stubs, proxies and objects there are.
    pub fn counts(&self) -> (u64, u64, u64)
        ensures stubs { result.0 ≡ length self.now.tables.stubs }
        ensures proxies { (g : plain.Setting) → IsOf g self.now → result.1 ≡ (if self.now.stands then proxies g self.now.tables.holdings else 0) }
        ensures objects { result.2 ≡ length self.now.tables.objects }
    {
        let proxies = if self.stands {
            self.unsaid.kept() as u64
        } else {
            0
        };
        (self.objects.stubs(), proxies, self.objects.living())
    }

    /// Whether the bridge stands.
    pub fn stands(&self) -> bool
        ensures { result ≡ self.now.stands }
    {
        self.stands
    }
}

/// So many idle roots.
fn idle_roots(alloc: Global, count: usize) -> Result<Vec<Root>, NoMemory>
    ensures { IfOk result (λ roots. map root_of roots.items ≡ replicate count idle) }
{
    let mut roots = Vec::new(alloc);
    for _turn in 0..count {
        if let Err(failed) = roots.push(Root::Idle) {
            drop(failed);
            drop(roots);
            return Err(NoMemory);
        }
    }
    Ok(roots)
}
