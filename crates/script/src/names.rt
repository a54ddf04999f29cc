// Names that instructions give, looked for in a script.
ghost use Rattle.std.specs.Prelude.{◌≡◌};
ghost use Rattle.script.specs.Frames.{fresh};
ghost use Rattle.script.specs.References.{has_block};
ghost use Rattle.script.specs.Held.{list_of};

use crate::instructions::Instructions;
use crate::role::Role;

// Whether the instruction at an address gives no name that was given before.
pub(crate) fn is_fresh(script: &Instructions, address: usize) -> bool
    ensures { result ≡ fresh (list_of script.now) address }
{
    match script.role(address).given_name() {
        Some(name) => !script
            .as_slice()
            .iter()
            .take(address.saturating_sub(1))
            .any(|earlier| Role::from(*earlier).given_name() == Some(name)),
        None => true,
    }
}

pub(crate) fn has_block(script: &Instructions, name: u8) -> bool
    ensures { result ≡ has_block (list_of script.now) name }
{
    script.as_slice().iter().any(|instruction| Role::from(*instruction) == Role::BeginsBlock(name))
}
