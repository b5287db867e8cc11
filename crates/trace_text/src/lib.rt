// The text of a whole trace and what holds of it: definitions and theorems, and the numbers that a text tells.
#![tactic(auto)]

use refusals::Refusal;

// The first `N no R` line of a text: its N and its R.
#[derive(Clone, Copy)]
pub struct First {
    pub step: u32,
    pub refusal: Refusal,
}

// The numbers of a text: A and B of its end line, and N and R of its first `N no R` line, both 0 where there is none.
#[repr(C)]
#[derive(Clone, Copy)]
pub struct Counts {
    pub accepted: u32,
    pub refused: u32,
    pub step: u32,
    pub refusal: u32,
}
