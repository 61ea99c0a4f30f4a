//! The fourteen kinds of message.
ghost use Rattle.std.specs.Prelude.{◌≡◌};
ghost use Rattle.affinity.specs.Kind.{is_changing};

/// What a message asks for.
#[derive(Clone, Copy, Debug, PartialEq, Eq)]
pub enum Kind {
    MakeVol,
    DropVol,
    Create,
    Delete,
    Seal,
    Unseal,
    Write,
    Punch,
    Read,
    List,
    Usage,
    Summary,
    SetLabel,
    Label,
}

/// Whether messages of this kind may change what the server holds.
pub fn changing(k: Kind) -> bool
    ensures { result ≡ is_changing k }
{
    match k {
        Kind::MakeVol
        | Kind::DropVol
        | Kind::Create
        | Kind::Delete
        | Kind::Seal
        | Kind::Unseal
        | Kind::Write
        | Kind::Punch
        | Kind::SetLabel => true,
        Kind::Read | Kind::List | Kind::Usage | Kind::Summary | Kind::Label => false,
    }
}
