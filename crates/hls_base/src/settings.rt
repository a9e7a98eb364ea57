use crate::text::Text;

/// What the user asks for: the top function's name, the multipliers and dividers of each width, the ports of each memory, whether loops are left without overlap, and the longest delay of a fused operation in units of delay, or 0 where none is fused.
#[derive(Drop)]
pub struct Settings {
    pub top: Text,
    pub mul: u8,
    pub div: u8,
    pub ports: u8,
    pub plain: bool,
    pub period: u32,
}

/// How many multipliers and dividers of each width there are, and ports of each memory.
#[derive(Clone, Copy, PartialEq, Eq)]
pub struct Units {
    pub mul: u8,
    pub div: u8,
    pub ports: u8,
}
