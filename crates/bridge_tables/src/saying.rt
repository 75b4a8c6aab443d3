//! Messages that are said.
ghost use Rattle.std.specs.Prelude.{◌≡◌, IfOk, OnOk, OnErr, List, take, length};
ghost use Rattle.bridge_model.specs.Answers.{is_some_piece};
ghost use Rattle.bridge_model.specs.References.{says, releases};
ghost use Rattle.bridge_model.specs.Saying.{AreSayable};
ghost use Rattle.bridge_model.specs.Sides.{nothing_goes};
ghost use Rattle.bridge_setting.specs.Settings.{setting_of};
ghost use Rattle.bridge_streams.specs.Draining.{waiting_bytes};
ghost use Rattle.uno_model.specs.Entities.{Entity};
ghost use Rattle.uno_model.specs.Sound.{IsSound};
ghost use Rattle.urp_message.specs.Messages.{message_of};
ghost use Rattle.bridge_tables.specs.EndTables.{IsOf, on_tables, quiet, forgotten, out_of_memory};
ghost use Rattle.bridge_tables.specs.Drained.{drained, goes_on};

use crate::Tables;
use crate::counting::count_message;
use bridge_model::Cause;
use bridge_setting::Setting;
use bridge_streams::Outgoing;
use uno_base::NoMemory;
use uno_types::{Name, Text};
use urp_message::Message;

impl Tables {
    /// Says a message.
    #[tactic(auto, unfolding(bridge_model::specs::References::says))]
    pub fn say(&mut self, setting: &Setting, message: Message) -> Result<(), NoMemory>
        requires { IsSound setting.now.registry }
        ensures said { OnOk result (self.new ≡ on_tables (says (setting_of setting.now) (message_of message)) self.old) }
        ensures kept { OnErr result (quiet self.new ≡ quiet self.old) }
    {
        match count_message(self.alloc, &setting.registry, &mut self.objects, &message) {
            Ok(()) => self.unsaid.push(message),
            Err(NoMemory) => {
                drop(message);
                Err(NoMemory)
            }
        }
    }

    /// Says that a pair of the peer's is held once less than it counts.
    #[tactic(auto, unfolding(bridge_model::specs::References::says, bridge_model::specs::References::counts_sent, message_model::specs::MessageNamings::message_namings))]
    pub(crate) fn say_release(
        &mut self,
        setting: &Setting,
        oid: &Text,
        face: &Name,
    ) -> Result<(), NoMemory>
        ensures said { OnOk result (self.new ≡ on_tables (releases (setting_of setting.now) oid.now face.now) self.old) }
        ensures kept { OnErr result (self.new ≡ self.old) }
    {
        let tid = setting.release_tid().copy()?;
        let Ok(oid) = oid.copy() else {
            drop(tid);
            return Err(NoMemory);
        };
        let Ok(face) = face.copy() else {
            drop(tid);
            drop(oid);
            return Err(NoMemory);
        };
        self.unsaid.push(Message::Release { tid, oid, face })
    }

    /// The next bytes, at most so many. Want of memory ends the bridge, and nothing is drained any more.
    pub fn drain(
        &mut self,
        setting: &Setting,
        outgoing: &mut Outgoing,
        max: u32,
    ) -> Result<Vec<u8>, NoMemory>
        requires sound { IsSound setting.now.registry }
        requires sayable { AreSayable setting.now.registry self.old.tables.unsaid }
        ensures bytes { IfOk result (λ bytes. bytes.items ≡ take max (waiting_bytes setting.now.registry self.old.tables.unsaid outgoing.old)) }
        ensures goes { IfOk result (λ bytes. outgoing.new ≡ goes_on setting.now.registry (length bytes.items) self.old.tables.unsaid outgoing.old) }
        ensures drained { IfOk result (λ bytes. self.new ≡ on_tables (drained setting.now.registry (length bytes.items) outgoing.old) self.old) }
        ensures forgotten { OnErr result (outgoing.new ≡ nothing_goes) }
        ensures lost { OnErr result (self.new ≡ on_tables forgotten (out_of_memory self.old)) }
        ensures rest { AreSayable setting.now.registry self.new.tables.unsaid }
    {
        match outgoing.drain(&setting.registry, &mut self.unsaid, max) {
            Ok(bytes) => Ok(bytes),
            Err(NoMemory) => {
                if self.stands {
                    self.stands = false;
                    self.end(Cause::NoMemory);
                }
                Err(NoMemory)
            }
        }
    }

    /// Whether bytes wait.
    pub fn waits(&self, outgoing: &Outgoing) -> bool
        ensures { (reg : List Entity) → result ≡ is_some_piece (waiting_bytes reg self.now.tables.unsaid outgoing.now) }
    {
        outgoing.waits(&self.unsaid)
    }
}
