// The calls that move a loaded machine.

#[derive(Clone, Copy, PartialEq, Eq, Debug)]
pub enum Call {
    Enter(u32, i32), // the row, and the figure that it gets
    Start,
    Step(u32), // the process
    Back(u32), // the process
}
