// Elements that are looked up in a table and then put into it, one after the other: whether any two are the same. For the crates above,
// which have the table and the elements: why they stop, with definitions and laws for any table and any elements.
#![tactic(auto)]

// Why no more elements are met: an earlier one is the same, or nothing more may be put into the table.
#[derive(Clone, Copy)]
pub enum Stopped {
    Again,
    Full,
}
