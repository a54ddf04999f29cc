// The frames that stand open while a script is judged.
ghost use Rattle.std.specs.Prelude.{◌≡◌, [], not};
ghost use Rattle.script.specs.Roles.{is_forked};
ghost use Rattle.script.specs.Frames.{right_count, counted};
ghost use Rattle.script.specs.Regions.{innermost};
ghost use Rattle.script.specs.Framing.{is_empty, Opened, Closed, Countable};

use crate::role::FrameKind;
use arrayvec::ArrayVec;
use std::marker::Model;

// A frame: where it was opened, and how many branches ended directly in it.
#[derive(Clone, Copy, Default, PartialEq, Eq, Debug)]
pub struct Frame {
    pub kind: FrameKind,
    pub address: u16,
    pub branches: u16,
}

// The open frames do not let an instruction stand where it does.
#[derive(Clone, Copy, PartialEq, Eq, Debug)]
pub(crate) struct Misfit;

// As many as can be open.
const MOST_OPEN: usize = 16;

// The outermost frame first.
#[derive(Drop)]
pub struct OpenFrames {
    frames: ArrayVec<Frame, MOST_OPEN>,
}

// The innermost frame first.
impl Model for OpenFrames {
    ghost use Rattle.std.specs.Prelude.{List, reverse};
    ghost use Rattle.script.specs.declared.frames.Frame.{Frame};

    ghost Value = { List Frame };

    ghost view = { λ held. reverse held.frames.items };
}

impl FrameKind {
    // Whether a frame of the kind is a region of its own: a fork is in the one around it.
    pub(crate) fn is_region(self) -> bool
        ensures { result ≡ not (is_forked self) }
    {
        !matches!(self, FrameKind::Forked(_))
    }

    // Whether a frame of the kind can be closed with so many branches.
    fn has_right_count(self, branches: u16) -> bool
        ensures { result ≡ right_count self branches }
    {
        match self {
            FrameKind::Forked(_) => (2..=7).contains(&branches),
            _ => true,
        }
    }
}

impl OpenFrames {
    pub(crate) fn none() -> OpenFrames
        ensures { result ≡ [] }
    {
        OpenFrames {
            frames: ArrayVec::new(),
        }
    }

    pub(crate) fn is_empty(&self) -> bool
        ensures { result ≡ is_empty self.now }
    {
        self.frames.is_empty()
    }

    // The address of the innermost procedure or branch; 0 is no absence, but the whole script, a region like the others.
    pub(crate) fn innermost(&self) -> u16
        ensures { result ≡ innermost self.now }
    {
        self.frames
            .iter()
            .rev()
            .find(|frame| frame.kind.is_region())
            .map_or(0, |frame| frame.address)
    }

    // Opens a frame, unless as many are open as can be.
    pub(crate) fn open(&mut self, kind: FrameKind, address: u16) -> Result<(), Misfit>
        ensures { Opened kind address self.old result self.new }
    {
        let frame = Frame {
            kind,
            address,
            branches: 0,
        };
        self.frames.try_push(frame).map_err(|_| Misfit)
    }

    // Closes the innermost frame and answers where it was opened, if the closer fits.
    pub(crate) fn close(&mut self, kind: FrameKind) -> Result<u16, Misfit>
        requires { Countable self.old }
        ensures { Closed kind self.old result self.new }
    {
        match self.frames.pop() {
            Some(frame) if frame.kind == kind && kind.has_right_count(frame.branches) => {
                if kind == FrameKind::Branch {
                    self.count_branch();
                }
                Ok(frame.address)
            }
            _ => Err(Misfit),
        }
    }

    // One more branch in the innermost frame.
    fn count_branch(&mut self)
        requires { Countable self.old }
        ensures { self.new ≡ counted self.old }
    {
        if let Some(frame) = self.frames.last_mut() {
            frame.branches += 1;
        }
    }
}
