// Rules of a device.

use mdr_core::Items;

/// What rules wait for.
#[derive(Clone, Copy)]
pub enum Trigger {
    /// A word was written to this register.
    Write(u32),
    /// This register was read.
    Read(u32),
    /// This tick of the run, counted from 1, began.
    Tick(u64),
    /// This count-down became zero.
    Zero(u32),
}

/// A rule's condition: those bits of a register that the mask has are the value's.
#[derive(Clone, Copy)]
pub struct Guard {
    pub reg: u32,
    pub mask: u32,
    pub value: u32,
}

/// What a rule does.
#[derive(Clone, Copy)]
pub enum Effect {
    /// Sets a register's bits that the mask has.
    Set(u32, u32),
    /// Clears a register's bits that the mask has.
    Clear(u32, u32),
    /// Puts a word into a register.
    Put(u32, u32),
    /// Copies the first register to the second.
    CopyTo(u32, u32),
    /// Starts a count-down at so many ticks.
    Start(u32, u32),
    /// Raises the line.
    Raise,
    /// Lowers the line.
    Lower,
}

/// A rule: what it waits for, its condition, and what it does, in order.
#[derive(Drop)]
pub struct Rule {
    pub trigger: Trigger,
    pub guard: Option<Guard>,
    pub effects: Items<Effect>,
}
