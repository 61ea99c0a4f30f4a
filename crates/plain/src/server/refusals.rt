//! Which of a message's checks fails first. `meaning` has the checks of each kind; they are made here without a loop over them.

ghost use Rattle.std.specs.Prelude.{◌≡◌, if◌then◌else◌, None, Some, false};
ghost use Rattle.message.specs.Heads.{has_data};
ghost use Rattle.protocol.specs.declared.replies.Refusal.TheVariants.{Exists, File, Sealed, Volume};
ghost use Rattle.meaning.specs.Refusals.{refusal_by};
ghost use Rattle.plain.specs.Server.{server_state};

use super::Server;
use affinity::{Geometry, Kind, is_in_range};
use protocol::{Refusal, has_file};

/// A refusal where a check fails.
fn refused_if(fails: bool, why: Refusal) -> Option<Refusal>
    ensures { result ≡ (if fails then Some why else None) }
{
    if fails { Some(why) } else { None }
}

impl Server {
    /// Why a message that needs its volume to be there (`list`, `usage`, `label`, `seal`, `unseal`) is refused, if it is.
    fn refusal_unless_made(&self, a: u16, v: u16) -> Option<Refusal>
        ensures { result ≡ (if (server_state self.now).made (a, v) then None else Some Volume) }
    {
        refused_if(!self.has_volume(a, v), Refusal::Volume)
    }

    /// Why a message that needs its volume to be there and not sealed is refused, if it is.
    pub(super) fn refusal_unless_open(&self, a: u16, v: u16) -> Option<Refusal>
        ensures { result ≡ (if (server_state self.now).made (a, v)
            then (if (server_state self.now).sealed (a, v) then Some Sealed else None) else Some Volume) }
    {
        match self.volumes.get(&(a, v)) {
            Some(volume) => refused_if(volume.sealed, Refusal::Sealed),
            None => Some(Refusal::Volume),
        }
    }

    /// Why a change of a file is refused, if it is.
    pub(super) fn refusal_to_change_file(&self, a: u16, v: u16, f: u16) -> Option<Refusal>
        ensures { result ≡ (if (server_state self.now).made (a, v)
            then (if (server_state self.now).sealed (a, v) then Some Sealed
            else (if (server_state self.now).files (a, v, f) then None else Some File)) else Some Volume) }
    {
        match self.volumes.get(&(a, v)) {
            Some(volume) if volume.sealed => Some(Refusal::Sealed),
            Some(volume) => refused_if(!has_file(volume.files, f), Refusal::File),
            None => Some(Refusal::Volume),
        }
    }

    /// Why a file can't be made, if it can't.
    fn refusal_to_create(&self, a: u16, v: u16, f: u16) -> Option<Refusal>
        ensures { result ≡ (if (server_state self.now).made (a, v)
            then (if (server_state self.now).sealed (a, v) then Some Sealed
            else (if (server_state self.now).files (a, v, f) then Some Exists else None)) else Some Volume) }
    {
        match self.volumes.get(&(a, v)) {
            Some(volume) if volume.sealed => Some(Refusal::Sealed),
            Some(volume) => refused_if(has_file(volume.files, f), Refusal::Exists),
            None => Some(Refusal::Volume),
        }
    }

    /// Why a question about a file is refused, if it is.
    fn refusal_to_read(&self, a: u16, v: u16, f: u16) -> Option<Refusal>
        ensures { result ≡ (if (server_state self.now).made (a, v)
            then (if (server_state self.now).files (a, v, f) then None else Some File) else Some Volume) }
    {
        match self.volumes.get(&(a, v)) {
            Some(volume) => refused_if(!has_file(volume.files, f), Refusal::File),
            None => Some(Refusal::Volume),
        }
    }

    /// The first check that a message of a kind without data, with these numbers, fails.
    pub(crate) fn refusal_by(&self, g: &Geometry, kind: Kind, numbers: [u16; 4]) -> Option<Refusal>
        requires { has_data kind ≡ false }
        ensures { result ≡ refusal_by g.now (server_state self.now) kind numbers }
    {
        let [a, v, f, _] = numbers;
        if !is_in_range(g, kind, numbers) {
            return Some(Refusal::Range);
        }
        match kind {
            Kind::Summary => None,
            Kind::MakeVol => refused_if(self.has_volume(a, v), Refusal::Exists),
            Kind::DropVol => self.refusal_unless_open(a, v),
            Kind::Create => self.refusal_to_create(a, v, f),
            Kind::Delete => self.refusal_to_change_file(a, v, f),
            Kind::Punch => self.refusal_to_change_file(a, v, f),
            Kind::Read => self.refusal_to_read(a, v, f),
            Kind::Seal | Kind::Unseal => self.refusal_unless_made(a, v),
            Kind::List | Kind::Usage => self.refusal_unless_made(a, v),
            Kind::Label => self.refusal_unless_made(a, v),
            Kind::Write | Kind::SetLabel => unreachable!(),
        }
    }
}
