//! What the names of a reactor are, and where they may stand.

ghost use Rattle.std.specs.Prelude.{◌≡◌};
ghost use Rattle.lft_resolve.specs.Kinds.{may_stand};

/// What a name is: the reactor's own, or a port of a contained instance.
#[derive(Clone, Copy, PartialEq, Eq, Drop)]
pub enum Kind {
    OwnParameter,
    OwnInput,
    OwnOutput,
    OwnTimer,
    OwnAction,
    OwnInstance,
    InnerInput,
    InnerOutput,
}

/// Where a name stands: among a reaction's triggers and uses, its effects, or on a side of a
/// connection.
#[derive(Clone, Copy, PartialEq, Eq, Drop)]
pub enum Role {
    Read,
    Effect,
    Source,
    Destination,
}

/// Whether a name of this kind may have this role.
pub fn may_stand(role: Role, kind: Kind) -> bool
    ensures { result ≡ may_stand role kind }
{
    match (role, kind) {
        (Role::Read, Kind::OwnInput | Kind::InnerOutput | Kind::OwnAction | Kind::OwnTimer) => true,
        (Role::Effect, Kind::OwnOutput | Kind::InnerInput | Kind::OwnAction) => true,
        (Role::Source, Kind::OwnInput | Kind::InnerOutput) => true,
        (Role::Destination, Kind::OwnOutput | Kind::InnerInput) => true,
        _ => false,
    }
}
