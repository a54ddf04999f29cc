// What an instruction does to the form of a script. All rules of form go by these roles.
ghost use Rattle.std.specs.Prelude.{◌≡◌};
ghost use Rattle.script.specs.Roles.{role_of, frame_name, given_name, leaves, before_branch, begins_branch, after_branch, arrives, opens_procedure};
ghost use Rattle.script.specs.Frames.{beside_by};

use instruction::instruction::Instruction;

// A stretch of instructions from an opener to its closer.
#[derive(Clone, Copy, Default, PartialEq, Eq, Debug)]
pub(crate) enum FrameKind {
    Procedure(u8), // from proc to p_return
    #[default] // what an unused place of the open frames holds
    Branch, // from par begin to par end
    Forked(u8), // from fork to merge
}

#[derive(Clone, Copy, PartialEq, Eq, Debug)]
pub(crate) enum Role {
    Plain,
    JumpsIf(u16),
    Jumps(u16),
    Arrives,
    BeginsBlock(u8),
    EndsBlock(u8),
    Opens(FrameKind),
    Closes(FrameKind),
}

impl From<Instruction> for Role {
    ghost from_gives = { λ instruction role. role ≡ role_of instruction };

    fn from(instruction: Instruction) -> Role {
        match instruction {
            Instruction::Jpc(target) => Role::JumpsIf(target),
            Instruction::Jmp(target) => Role::Jumps(target),
            Instruction::Label => Role::Arrives,
            Instruction::Block(name) => Role::BeginsBlock(name),
            Instruction::End(name) => Role::EndsBlock(name),
            Instruction::Proc(name) => Role::Opens(FrameKind::Procedure(name)),
            Instruction::PReturn(name) => Role::Closes(FrameKind::Procedure(name)),
            Instruction::ParBegin => Role::Opens(FrameKind::Branch),
            Instruction::ParEnd => Role::Closes(FrameKind::Branch),
            Instruction::Fork(name) => Role::Opens(FrameKind::Forked(name)),
            Instruction::Merge(name) => Role::Closes(FrameKind::Forked(name)),
            _ => Role::Plain,
        }
    }
}

impl FrameKind {
    // The name that its opener gives, if it gives one.
    pub(crate) fn name(self) -> Option<u8>
        ensures { result ≡ frame_name self }
    {
        match self {
            FrameKind::Procedure(name) => Some(name),
            FrameKind::Branch => None,
            FrameKind::Forked(name) => Some(name),
        }
    }
}

impl Role {
    // The name that a block, proc or fork gives.
    pub(crate) fn given_name(self) -> Option<u8>
        ensures { result ≡ given_name self }
    {
        match self {
            Role::BeginsBlock(name) => Some(name),
            Role::Opens(kind) => kind.name(),
            _ => None,
        }
    }

    // A jmp or p_return: what follows is not come to from here.
    fn leaves(self) -> bool
        ensures { result ≡ leaves self }
    {
        matches!(self, Role::Jumps(_) | Role::Closes(FrameKind::Procedure(_)))
    }

    // A fork or par end.
    fn is_before_branch(self) -> bool
        ensures { result ≡ before_branch self }
    {
        matches!(
            self,
            Role::Opens(FrameKind::Forked(_)) | Role::Closes(FrameKind::Branch)
        )
    }

    // A par begin.
    fn begins_branch(self) -> bool
        ensures { result ≡ begins_branch self }
    {
        matches!(self, Role::Opens(FrameKind::Branch))
    }

    // A par begin or merge.
    fn is_after_branch(self) -> bool
        ensures { result ≡ after_branch self }
    {
        matches!(
            self,
            Role::Opens(FrameKind::Branch) | Role::Closes(FrameKind::Forked(_))
        )
    }

    // A label.
    pub(crate) fn arrives(self) -> bool
        ensures { result ≡ arrives self }
    {
        matches!(self, Role::Arrives)
    }

    // A proc.
    pub(crate) fn opens_procedure(self) -> bool
        ensures { result ≡ opens_procedure self }
    {
        matches!(self, Role::Opens(FrameKind::Procedure(_)))
    }

    // Whether it can stand between two others.
    pub(crate) fn fits_between(self, before: Role, after: Role) -> bool
        ensures { result ≡ beside_by self before after }
    {
        match self {
            Role::Opens(FrameKind::Procedure(_)) => before.leaves(),
            Role::Opens(FrameKind::Branch) => before.is_before_branch(),
            Role::Opens(FrameKind::Forked(_)) => after.begins_branch(),
            Role::Closes(FrameKind::Branch) => after.is_after_branch(),
            _ => true,
        }
    }
}
