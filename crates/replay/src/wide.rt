// What a call answers, however many numbers it has; 0 behind them.
use crate::cases::{ANSWERS, given};
use std::array;

pub fn wide(t: &[usize]) -> [usize; ANSWERS] {
    array::from_fn(|i| given(t, i))
}
