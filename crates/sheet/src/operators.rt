// The figures of an operator: ticks on an accelerator, ticks on a processor, memory in KiB, and ticks to move its output.
#[repr(C)]
#[derive(Drop, PartialEq, Eq, Debug)]
pub struct Operator {
    pub acc: u32,
    pub cpu: u32,
    pub size: u32,
    pub link: u32,
}

impl Operator {
    // What stands at a number without operator.
    pub const BLANK: Operator = Operator {
        acc: 0,
        cpu: 0,
        size: 0,
        link: 0,
    };
}

// One of the four. It names a figure in contracts too, which a closure that picks one could not, so it stays an enum.
#[derive(Clone, Copy, PartialEq, Eq, Debug)]
pub enum Figure {
    Acc,
    Cpu,
    Size,
    Link,
}
