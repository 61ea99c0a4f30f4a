//! What a message that passes its checks changes. The counts of each stripe's blocks stay right.

ghost use Rattle.std.specs.Prelude.{◌≡◌, ◌<◌, OnOk, OnErr, None, true, false, if◌then◌else◌};
ghost use Rattle.affinity.specs.declared.geometry.Geometry.{Geometry};
ghost use Rattle.protocol.specs.declared.messages.Msg.{Msg};
ghost use Rattle.message.specs.Heads.{message_without_data, has_data};
ghost use Rattle.meaning.specs.Refusals.{refusal};
ghost use Rattle.meaning.specs.Step.{effect};
ghost use Rattle.plain.specs.Server.{server_state, HasRightCounts, IsConsistent};
ghost use Rattle.affinity.specs.declared.limits.TheConstants.{MOST_FILES};

use super::{Server, Volume};
use affinity::{Geometry, Kind};
use protocol::LABEL_SIZE;
use std::alloc::AllocError;

impl Server {
    /// Sets the label of a volume that is made.
    pub(super) fn set_label(&mut self, a: u16, v: u16, bytes: &[u8; LABEL_SIZE])
        requires made { (server_state self.old).made (a, v) ≡ true }
        ensures state { server_state self.new ≡ effect (server_state self.old) (Msg.SetLabel a v bytes.now) }
        ensures counted { (g : Geometry) → HasRightCounts g self.old → HasRightCounts g self.new }
    {
        let Some(volume) = self.volumes.get_mut(&(a, v)) else {
            unreachable!()
        };
        volume.label = *bytes;
    }

    /// Makes a volume that isn't there, with a label of zeros.
    pub(super) fn insert_volume(&mut self, a: u16, v: u16) -> Result<(), AllocError>
        requires absent { (server_state self.old).made (a, v) ≡ false }
        ensures state { OnOk result (server_state self.new ≡ effect (server_state self.old) (Msg.MakeVol a v)) }
        ensures unchanged { OnErr result (server_state self.new ≡ server_state self.old) }
        ensures counted { (g : Geometry) → HasRightCounts g self.old → HasRightCounts g self.new }
    {
        let volume = Volume {
            sealed: false,
            label: [0; LABEL_SIZE],
            files: 0,
        };
        self.volumes.insert((a, v), volume)?;
        Ok(())
    }

    /// Makes a file in a volume that is made.
    pub(super) fn insert_file(&mut self, a: u16, v: u16, f: u16)
        requires made { (server_state self.old).made (a, v) ≡ true }
        requires file { f < MOST_FILES }
        ensures state { server_state self.new ≡ effect (server_state self.old) (Msg.Create a v f) }
        ensures counted { (g : Geometry) → HasRightCounts g self.old → HasRightCounts g self.new }
    {
        let Some(volume) = self.volumes.get_mut(&(a, v)) else {
            unreachable!()
        };
        volume.files |= 1 << f;
    }

    /// Seals or unseals a volume that is made, whether it was sealed or not.
    pub(super) fn set_sealed(&mut self, a: u16, v: u16, sealed: bool)
        requires made { (server_state self.old).made (a, v) ≡ true }
        ensures state { server_state self.new ≡ effect (server_state self.old) (if sealed then Msg.Seal a v else Msg.Unseal a v) }
        ensures counted { (g : Geometry) → HasRightCounts g self.old → HasRightCounts g self.new }
    {
        let Some(volume) = self.volumes.get_mut(&(a, v)) else {
            unreachable!()
        };
        volume.sealed = sealed;
    }

    /// Carries out a message without data that passes its checks, by its kind and its numbers.
    pub(super) fn apply_by(
        &mut self,
        g: &Geometry,
        kind: Kind,
        numbers: [u16; 4],
    ) -> Result<(), AllocError>
        requires without_data { has_data kind ≡ false }
        requires passed { refusal g.now (server_state self.old) (message_without_data kind numbers) ≡ None }
        requires sound { IsConsistent g.now self.old }
        ensures state { OnOk result (server_state self.new ≡ effect (server_state self.old) (message_without_data kind numbers)) }
        ensures unchanged { OnErr result (server_state self.new ≡ server_state self.old) }
        ensures counted { HasRightCounts g.now self.new }
    {
        let [a, v, f, b] = numbers;
        match kind {
            Kind::MakeVol => self.insert_volume(a, v)?,
            Kind::DropVol => self.remove_volume(g, a, v),
            Kind::Create => self.insert_file(a, v, f),
            Kind::Delete => self.remove_file(g, a, v, f),
            Kind::Seal => self.set_sealed(a, v, true),
            Kind::Unseal => self.set_sealed(a, v, false),
            Kind::Punch => self.remove_block(g, a, v, f, b),
            Kind::Read | Kind::List | Kind::Usage | Kind::Summary | Kind::Label => {}
            Kind::Write | Kind::SetLabel => unreachable!(),
        }
        Ok(())
    }
}
