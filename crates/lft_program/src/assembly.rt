//! The program of the parts of a tree.

ghost use Rattle.std.specs.Prelude.{◌≡◌, Any};
ghost use Rattle.lft_tree.specs.Tree.{FileTree, reactors_of};
ghost use Rattle.lft_resolve.specs.Causes.{HasLongTime};
ghost use Rattle.lft_program.specs.{inner.Tables.IsLawful, Flattening.Flat};
ghost use Rattle.lft_ir.specs.{Names.{AreDistinct, AreWords}, Sound.IsWithinLimits};

use lft_ir::{Action, NameTable, Port, Program, Reaction, Timer};

/// The program of the parts of a tree of which no cause of refusal holds. It is a border of proofs:
/// what `flatten` knows of the tree comes in, and what `from_parts` asks of parts goes out.
pub(crate) fn assembled(
    ports: Vec<Port>,
    actions: Vec<Action>,
    timers: Vec<Timer>,
    reactions: Vec<Reaction>,
    names: NameTable,
) -> Program
    requires flat { (tree : FileTree) × IsLawful tree × (Any HasLongTime (reactors_of tree) → ⊥) × Flat tree (record { ports = ports.items; actions = actions.items; timers = timers.items; reactions = reactions.items; names = names }) }
    requires limits { IsWithinLimits (record { ports = ports.items; actions = actions.items; timers = timers.items; reactions = reactions.items; names = names }) }
    requires distinct { AreDistinct names }
    requires words { AreWords names }
    ensures { result ≡ record { ports = ports.items; actions = actions.items; timers = timers.items; reactions = reactions.items; names = names } }
{
    Program::from_parts(ports, actions, timers, reactions, names)
}
